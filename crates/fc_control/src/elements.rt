// Which peer is which element.
ghost use Rattle.std.specs.Prelude.{◌≡◌, ◌≤◌, length};
ghost use Rattle.fc_control.specs.ControlNode as spec;

use fc_base::FeId;

// The peer of an element: the number of its place, from 1.
pub(crate) fn peer_of(element: FeId, elements: &[FeId]) -> u32
    requires { length elements.now ≤ 255 }
    ensures { result ≡ spec.peer_of element elements.now }
{
    let mut peer = 1u32;
    for other in elements {
        if element == *other {
            return peer;
        }
        peer += 1;
    }
    peer
}

// The element of a peer, if it is the peer of one.
pub(crate) fn element_of(elements: &[FeId], peer: u32) -> Option<FeId>
    ensures { result ≡ spec.element_of elements.now peer }
{
    if peer == 0 {
        return None;
    }
    elements.get(peer as usize - 1).copied()
}
