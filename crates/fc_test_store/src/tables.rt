// The tables of operations on a configuration, and what each of them answers.
use crate::causes::CAUSES;
use crate::trial::Trial;
use crate::words::text_of;
use crate::worked::{ALL, COPIED, FULL, KEPT, MERGED, TRUTHS, WORKED};
use fc_test_kit::cut;
use std::alloc::Global;
use std::test::Fail;

// Goes through the lines of a case on a configuration of its own. Gives the first line that is answered otherwise, with its answer. A line is
// an operation, its spot and its bytes, and behind ` = ` the answer; one that begins with `--` says what those below it are about.
fn first_wrong(alloc: Global, truths: u32, case: &str) -> Result<Option<String>, Fail> {
    let mut trial = Trial::new(alloc, truths)?;
    for line in case.split("\n") {
        if line.starts_with("--") {
            continue;
        }
        let (asked, wanted) = cut(line, " = ");
        let answer = trial.answer(asked)?;
        if answer.as_slice() != wanted.as_bytes() {
            let text = text_of(answer)?;
            return Ok(Some(format!(in alloc; "{line}: {text}")?));
        }
    }
    Ok(None)
}

// The first line of all cases that is answered otherwise.
fn first_wrong_of(alloc: Global, truths: u32, cases: &str) -> Result<Option<String>, Fail> {
    for case in cases.split("\n\n") {
        if let Some(wrong) = first_wrong(alloc, truths, case)? {
            return Ok(Some(wrong));
        }
    }
    Ok(None)
}

#[test]
fn operations_are_answered_and_change_what_they_name(rt: HostRuntime) -> Result<(), Fail> {
    for cases in [WORKED, CAUSES] {
        assert_eq!(rt; first_wrong_of(rt.alloc(), 1, cases)?, None);
    }
    Ok(())
}

#[test]
fn a_full_table_is_put_and_read(rt: HostRuntime) -> Result<(), Fail> {
    assert_eq!(rt; first_wrong_of(rt.alloc(), 0, FULL)?, None);
    Ok(())
}

#[test]
fn a_full_table_is_merged_and_goes_back(rt: HostRuntime) -> Result<(), Fail> {
    assert_eq!(rt; first_wrong_of(rt.alloc(), 0, MERGED)?, None);
    Ok(())
}

#[test]
fn a_full_table_is_copied_as_it_was(rt: HostRuntime) -> Result<(), Fail> {
    assert_eq!(rt; first_wrong_of(rt.alloc(), 0, COPIED)?, None);
    Ok(())
}

#[test]
fn all_instances_go_back_at_once(rt: HostRuntime) -> Result<(), Fail> {
    assert_eq!(rt; first_wrong_of(rt.alloc(), TRUTHS, ALL)?, None);
    Ok(())
}

#[test]
fn a_refused_allocation_changes_nothing(rt: HostRuntime) -> Result<(), Fail> {
    assert_eq!(rt; first_wrong_of(rt.alloc(), 0, KEPT)?, None);
    Ok(())
}
