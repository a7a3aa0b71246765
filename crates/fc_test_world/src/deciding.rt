// What a life decides by the answers of all participants.
use crate::fence::epoch;
use fc_master::{Answer, Decision, Seen, decide};
use std::test::Fail;

// Two answers under these epochs, and what they decide under 1025.
fn decided(first: (u32, Seen), second: (u32, Seen)) -> Result<Option<Decision>, Fail> {
    let answers = [
        Some(Answer {
            epoch: epoch(first.0)?,
            seen: first.1,
        }),
        Some(Answer {
            epoch: epoch(second.0)?,
            seen: second.1,
        }),
    ];
    Ok(decide(epoch(1025)?, &answers))
}

#[test]
fn only_answers_of_the_own_epoch_decide(rt: HostRuntime) -> Result<(), Fail> {
    let complete = Some(Decision::Complete);
    let abort = Some(Decision::Abort);
    for (first, second, wanted) in [
        ((1025, Seen::Prepared), (513, Seen::Prepared), None),
        ((513, Seen::Completed), (1025, Seen::Completed), None),
        ((1025, Seen::Completed), (1025, Seen::Prepared), complete),
        ((1025, Seen::Aborted), (1025, Seen::Completed), complete),
        ((1025, Seen::Prepared), (1025, Seen::Aborted), abort),
        ((1025, Seen::Prepared), (1025, Seen::Absent), abort),
        ((1025, Seen::Prepared), (1025, Seen::Started), abort),
        ((1025, Seen::Prepared), (1025, Seen::Prepared), complete),
    ] {
        assert_eq!(rt; decided(first, second)?, wanted);
    }
    assert_eq!(rt; decide(epoch(1025)?, &[None]), None);
    assert_eq!(rt; decide(epoch(1025)?, &[]), complete);
    Ok(())
}
