// Numbers, which are within their bounds by their types.
ghost use Rattle.std.specs.Prelude.{◌≡◌, ◌<◌, ◌^◌};

/// A number of 32 bits.
pub fn word(n: u32) -> u32
    ensures same { result ≡ n }
    ensures within { n < 2 ^ 32 }
{
    n
}

/// A number of 64 bits.
pub fn long_word(n: u64) -> u64
    ensures same { result ≡ n }
    ensures within { n < 2 ^ 64 }
{
    n
}
