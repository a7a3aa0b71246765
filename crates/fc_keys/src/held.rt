// The bytes of a key as a node holds them: a few stand in the node itself, so that who compares keys looks at no other memory.
ghost use Rattle.std.specs.Prelude.{◌≡◌, []};

use fc_base::Octets;
use std::marker::Model;

// How many bytes stand in the node.
const FEW: usize = 16;

#[derive(Debug, Drop)]
enum Bytes {
    Few(u8, [u8; 16]),
    Many(Octets),
}

/// The bytes of a key, which contracts see as that list.
#[derive(Debug, Drop)]
pub(crate) struct HeldKey {
    bytes: Bytes,
}

impl Model for HeldKey {
    ghost use Rattle.std.specs.Prelude.{ℕ, List};
    ghost use Rattle.fc_keys.specs.Held.{bytes_of, Fits};

    ghost Value = { List ℕ };

    ghost view = { λ k. bytes_of k.bytes };

    ghost invariant = { λ k. Fits k.bytes };
}

impl HeldKey {
    /// No bytes.
    pub(crate) fn none() -> HeldKey
        ensures { result ≡ [] }
    {
        HeldKey {
            bytes: Bytes::Few(0, [0; 16]),
        }
    }

    /// The bytes of a key. It takes no memory.
    pub(crate) fn of(key: Octets) -> HeldKey
        ensures { result ≡ key }
    {
        let len = key.len();
        if len > FEW {
            return HeldKey {
                bytes: Bytes::Many(key),
            };
        }
        let mut few = [0u8; 16];
        few[..len].copy_from_slice(key.as_slice());
        HeldKey {
            bytes: Bytes::Few(len as u8, few),
        }
    }

    /// The bytes.
    pub(crate) fn as_slice(&self) -> &[u8]
        ensures { result.now ≡ self.now }
    {
        match &self.bytes {
            Bytes::Few(len, few) => &few[..usize::from(*len)],
            Bytes::Many(key) => key.as_slice(),
        }
    }
}
