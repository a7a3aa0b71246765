// The hub that dials, over a network that is played.
use crate::played::Answer;
use crate::played::Answer::{Comes, Refuses, RefusesLater, Silence};
use crate::playing::Step::{
    AllOpened, At, Bytes, Close, Closed, Dialled, Ends, Moments, Opened, Over, Pass, Says, Send,
    Took,
};
use crate::playing::{Step, dialling, play};
use std::test::Fail;

// Plays that begin at the time 777: how many addresses there are, for how many connections, how they answer, and how many of these each name
// stands for.
const PLAYS: [(&str, u32, u32, Answer, usize, &[Step]); 10] = [
    (
        "the wait before an address is dialled again doubles, up to five seconds",
        1,
        9,
        Refuses,
        1,
        &[
            Over,
            Dialled(&[777, 877, 1077, 1477, 2277, 3877, 7077, 12_077, 17_077]),
            At(17_077),
        ],
    ),
    (
        "an address that is refused a little later is refused",
        1,
        3,
        RefusesLater,
        2,
        &[Over, Dialled(&[777, 877, 1077]), At(1077)],
    ),
    (
        "an address has a second to answer",
        2,
        4,
        Silence,
        1,
        &[Over, Dialled(&[777, 777, 1877, 1877]), At(2877)],
    ),
    (
        "a name that stands for no address is refused",
        1,
        2,
        Comes,
        0,
        &[Over, Dialled(&[777, 877])],
    ),
    (
        "who is silent for two seconds is closed alone, and dialled again",
        2,
        4,
        Comes,
        1,
        &[
            AllOpened(1, 2),
            Pass(500),
            Says(0, 1),
            Bytes(1, 1),
            Closed(2),
            At(2777),
            Opened(2),
            At(2877),
            Closed(1),
            At(3277),
            Opened(1),
            At(3377),
            Closed(2),
            Closed(1),
            Over,
            At(5377),
            Dialled(&[777, 777, 2877, 3377]),
        ],
    ),
    (
        "who has stood ten seconds and is silent for half of one is closed",
        1,
        1,
        Comes,
        1,
        &[
            Opened(1),
            Pass(1900),
            Says(0, 1),
            Bytes(1, 1),
            Pass(1900),
            Says(0, 1),
            Bytes(1, 1),
            Pass(1900),
            Says(0, 1),
            Bytes(1, 1),
            Pass(1900),
            Says(0, 1),
            Bytes(1, 1),
            Pass(1900),
            Says(0, 1),
            Bytes(1, 1),
            Closed(1),
            At(10_777),
            Over,
        ],
    ),
    (
        "who spoke while the clock jumped was not silent",
        1,
        1,
        Comes,
        1,
        &[
            Opened(1),
            Says(0, 3),
            Pass(3_600_000),
            Moments(1),
            Bytes(1, 3),
            Closed(1),
            At(3_601_277),
            Over,
        ],
    ),
    (
        "who is closed gets what was sent, and the end comes once it has closed too",
        1,
        1,
        Comes,
        1,
        &[
            Opened(1),
            Send(1, 0, 4),
            Send(2, 0, 4),
            Close(1),
            Took(0, 4, true),
            Ends(0),
            Over,
            At(777),
        ],
    ),
    ("no addresses", 0, 7, Comes, 1, &[Over]),
    (
        "as many addresses as control elements may have",
        255,
        255,
        Comes,
        1,
        &[AllOpened(1, 255), At(777)],
    ),
];

#[test]
fn a_hub_that_dials_does_as_it_is_to(rt: HostRuntime) -> Result<(), Fail> {
    for (name, addresses, connections, answer, names, steps) in PLAYS {
        let mut hub = dialling(rt.alloc(), addresses, connections, answer, names)?;
        play(rt.alloc(), &mut hub, name, &[Moments(1), At(777)])?;
        play(rt.alloc(), &mut hub, name, steps)?;
        assert!(rt; !hub.wires().lines.is_empty() || steps.len() == 1, "{name}");
    }
    Ok(())
}
