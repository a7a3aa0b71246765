// Reads an input whole.
ghost use Rattle.std.specs.Prelude.{◌≡◌, ◌≢◌, ◌≤◌, ◌<◌, []};
ghost use Rattle.fc_endings.specs.Looks.{LookCount, LookEnds};
ghost use Rattle.fc_endings.specs.Limits.{most_bytes};

use fc_base::{Memory, Source, Trouble};
use fc_msg::read_behind;

/// So many bytes of an input are looked at, and one more shows that there are too many.
pub const LIMIT: usize = 67_108_864;

/// So many calls of `read` are made at most: each brings a byte, but for the last.
pub const READS: usize = LIMIT + 2;

const PIECE: usize = 65_536;

/// What was seen of an input.
#[derive(Clone, Copy, Debug, PartialEq, Eq)]
pub enum Look {
    /// It was read to its end, and has no more bytes than are looked at.
    Whole,
    /// It is longer than is looked at.
    TooLong,
    /// It can't be read.
    ReadFault,
}

/// How many bytes are asked for next, where so many are left to the limit: one shows that there are too many.
pub fn next_piece(left: usize) -> usize
    ensures some { 0 < result }
    ensures most { result ≤ 65536 }
    ensures within { left ≢ 0 → result ≤ left }
    ensures one { left ≡ 0 → result ≡ 1 }
{
    if left == 0 { 1 } else { left.min(PIECE) }
}

/// Reads the input to its end, as far as it is looked at, into a buffer that holds nothing yet.
pub fn look_over<S: Source>(input: &mut S, held: &mut Vec<u8>) -> Result<Look, Memory>
    requires { held.old.items ≡ [] }
    ensures ends { LookEnds most_bytes result held.new.items (S.left input.old) (S.left input.new) }
    ensures count { LookCount result (S.faults input.old) (S.faults input.new) }
{
    let mut count = 0usize;
    'reads: for _ in 0..READS {
        let left = LIMIT - count;
        let given = match read_behind(held, input, next_piece(left)) {
            Ok(given) => given,
            Err(Trouble::Failed) => return Ok(Look::ReadFault),
            Err(Trouble::Memory) => return Err(Memory),
        };
        if given == 0 {
            return Ok(Look::Whole);
        }
        if left == 0 {
            return Ok(Look::TooLong);
        }
        count += given;
    }
    unreachable!()
}
