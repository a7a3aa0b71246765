// The connections of an element, and how it ends.
use crate::tables::first_wrong_under;
use std::alloc::Global;
use std::fmt::Write;
use std::test::Fail;

const WORDS: &str = "element 2 40000001 a 1 9";

const LIBRARY: &str = "class = [{ id = 5, name = 'c' }]\ninstance = [{ class = 5, id = 1 }]";

// The association is accepted, and a heartbeat asks for an answer.
const ACCEPTED: &str = "\
open 1 = 10010006 00000002 FFFFFFFD 00000000 00000000 C0000000
10110008 40000001 00000002 00000000 00000000 00000000 00100008 00000000 =
100F0006 40000001 00000002 00000000 00000000 C0000000 = 100F0006 00000002 40000001 00000000 00000000 00000000
element 2 epoch 0 ce 40000001 sequence 0";

const UNACCEPTED: &str = "\
open 1 = 10010006 00000002 FFFFFFFD 00000000 00000000 C0000000
100F0006 40000001 00000002 00000000 00000000 C0000000 =
element 2 epoch 0 ce 40000001 sequence 0";

#[test]
fn an_element_answers_the_heartbeat_of_its_controller(rt: HostRuntime) -> Result<(), Fail> {
    let alloc = rt.alloc();
    for document in ["", LIBRARY] {
        assert_eq!(rt;
            first_wrong_under(alloc, WORDS, document, ACCEPTED, 65_536)?,
            None
        );
    }
    assert_eq!(rt;
        first_wrong_under(alloc, WORDS, "", UNACCEPTED, 65_536)?,
        None
    );
    Ok(())
}

// A connection opens and closes, and another one opens.
const ENDED: &str = "\
open 1 = 10010006 00000002 FFFFFFFD 00000000 00000000 C0000000
close 1 =
open 2 =
element 2 epoch 0 ce 40000001 sequence 0
status 10";

#[test]
fn an_element_takes_no_more_events_than_it_is_to_take(rt: HostRuntime) -> Result<(), Fail> {
    let words = "element 2 40000001 a 1 2";
    assert_eq!(rt;
        first_wrong_under(rt.alloc(), words, "", ENDED, 65_536)?,
        None
    );
    Ok(())
}

// What is no message; then the same peer opens once more.
const CLOSED: &str = "\
open 1 = 10010006 00000002 FFFFFFFD 00000000 00000000 C0000000
00000000 00000000 00000000 00000000 00000000 00000000 = 1 closed
10110008 40000001 00000002 00000000 00000000 00000000 00100008 00000000 =
100F0006 40000001 00000002 00000000 00000000 C0000000 =
open 1 = 10010006 00000002 FFFFFFFD 00000000 00000000 C0000000
element 2 epoch 0 ce 40000001 sequence 0";

#[test]
fn a_peer_that_sends_no_message_is_closed_and_read_no_more(rt: HostRuntime) -> Result<(), Fail> {
    let words = "element 2 40000001 a 2 9";
    assert_eq!(rt;
        first_wrong_under(rt.alloc(), words, "", CLOSED, 65_536)?,
        None
    );
    Ok(())
}

// As many peers as may be, and one more.
fn crowd(alloc: Global) -> Result<String, Fail> {
    let mut case = String::new(alloc);
    for peer in 1u32..65 {
        write!(case, "open {peer} = {peer} AssociationSetup\n")?;
    }
    case.push_str("open 65 = 65 closed\nelement 2 epoch 0 ce 40000001 sequence 0")?;
    Ok(case)
}

#[test]
fn a_peer_beyond_the_sixty_fourth_is_closed(rt: HostRuntime) -> Result<(), Fail> {
    let alloc = rt.alloc();
    let case = crowd(alloc)?;
    let words = "element 2 40000001 a 9 99";
    assert_eq!(rt;
        first_wrong_under(alloc, words, "", case.as_str(), 65_536)?,
        None
    );
    Ok(())
}

// Documents that are no library, and the lines that tell why.
const NO_LIBRARIES: &str = "\
< => nottoml
colour = 1 => unknown colour
class = [{ id = 5 }] => missing name
class = 5 => wrongkind class
instance = [{ class = 5, id = 1 }] => check unknownclass";

#[test]
fn a_library_that_is_refused_leaves_the_hub_alone(rt: HostRuntime) -> Result<(), Fail> {
    let alloc = rt.alloc();
    for row in NO_LIBRARIES.lines() {
        let (document, why) = row.split_once(" => ").ok_or("a reason")?;
        let case = format!(in alloc;
            "open 1 =\n10110008 40000001 00000002 00000000 00000000 00000000 00100008 00000000 =\n100F0006 40000001 00000002 00000000 00000000 C0000000 =\nrefused library {why}\nstatus 5"
        )?;
        assert_eq!(rt;
            first_wrong_under(alloc, WORDS, document, case.as_str(), 65_536)?,
            None
        );
    }
    Ok(())
}
