// The contents that the leaves of a query would have, one after the other.
ghost use Rattle.std.specs.Prelude.{◌≡◌, ◌<◌, ◌≤◌, map, length, List, Some, IfOk, IfSome, IfNone};
ghost use Rattle.fc_path.specs.Canon.{joined, ilv_written};
ghost use Rattle.fc_path.specs.Results.{Sized, Held};
ghost use Rattle.fc_ops.specs.Filling.{next_of, content_written};
ghost use Rattle.fc_ops.specs.declared.offers.Content.{Content as Contents};

use fc_base::{Code, List, Memory, Octets};
use fc_wire::Ilv;

/// What a leaf of the response to a query holds.
#[derive(Debug, PartialEq, Eq, Drop)]
pub enum Content {
    /// A whole value.
    Full(Octets),
    /// Properties, by rising identifier.
    Sparse(List<Ilv>),
    /// The code by which it holds neither.
    Refused(Code),
}

/// Tells the contents of leaves, one after the other in reading order.
pub trait Offers {
    /// The contents that are still to be told.
    ghost offered: { Self → List Contents };

    /// The content of the next leaf.
    fn next(&mut self) -> Result<Content, Memory>
        ensures { IfOk result (λ c. (c, offered self.new) ≡ next_of (offered self.old)) };
}

// The greatest length of the value of a TLV, in bytes.
const VALUE: usize = 65_531;

// The bytes of an ILV with its padding, where it fits a TLV.
fn ilv_size(ilv: &Ilv) -> Option<usize>
    ensures size { IfSome result (λ n. Sized (Some n) (ilv_written ilv.now)) }
    ensures small { IfSome result (λ n. n < 65536) }
    ensures none { IfNone result (65532 ≤ length (ilv_written ilv.now).text) }
{
    let len = ilv.value.len();
    if len > VALUE {
        return None;
    }
    let size = 8 + (len + 3) / 4 * 4;
    if size > VALUE { None } else { Some(size) }
}

fn ilvs_size(ilvs: &[Ilv]) -> Option<usize>
    ensures { Held 65532 result (joined (map ilv_written ilvs.now)) }
{
    let mut sum = 0usize;
    for ilv in ilvs {
        match ilv_size(ilv) {
            Some(size) => {
                if sum + size > VALUE {
                    return None;
                }
                sum += size;
            }
            None => return None,
        }
    }
    Some(sum)
}

/// The bytes of a content with its header and padding; none exactly where a length in it does not fit its field.
pub fn content_size(content: &Content) -> Option<usize>
    ensures size { Sized result (content_written content.now) }
    ensures small { IfSome result (λ n. n < 65537) }
{
    match content {
        Content::Full(value) => {
            let len = value.len();
            if len > VALUE {
                None
            } else {
                Some(4 + (len + 3) / 4 * 4)
            }
        }
        Content::Sparse(ilvs) => match ilvs_size(ilvs.as_slice()) {
            Some(size) => Some(size + 4),
            None => None,
        },
        Content::Refused(_) => Some(8),
    }
}
