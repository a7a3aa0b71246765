// The command `world`, through `run`.
use crate::running::{failing, ran, run_without_hub};
use fc_base::{MemSink, MemSource, SureSink, SureSource};
use fc_test_kit::words_of;
use std::alloc::Global;
use std::test::Fail;

// A script of element 1, with a call that is refused.
const SCRIPT: &str = r#"steps = ["start 1 1", "giveup 1 257.1"]

[[element]]
id = 1
ce = 0x40000001

[[controller]]
id = 0x40000001
"#;

const REPORT: &str = "step 2 unknown
element 1 epoch 0 ce 40000001 sequence 0
controller 1 round 1 epoch 257
sent 0
";

#[test]
fn a_script_is_played_in_whatever_pieces_it_comes(rt: HostRuntime) -> Result<(), Fail> {
    let alloc = rt.alloc();
    for piece in [1, 7, 65_536] {
        let script = Vec::from_slice(alloc, SCRIPT.as_bytes())?;
        let (status, written) = ran(alloc, "world", script, piece)?;
        assert_eq!(rt; status, 0, "in pieces of {piece}");
        assert_eq!(rt;
            written.as_slice(),
            REPORT.as_bytes(),
            "in pieces of {piece}"
        );
    }
    Ok(())
}

// Texts of steps, with the line that is written, behind `refused script`.
const REFUSED: &str = r#""open 2 1" => name 1
"start 1 1", "deliver 1" => message 2
"start 1 1", "stop 1", "start 1 1" => round 3
"start 1 1", "start 1 1" => running 2
"start 1 1", "giveup 1 257.1", "stop 1", "stop 1" => notrunning 4
"stop 1", "frob" => step 2"#;

#[test]
fn a_step_that_cannot_be_made_writes_its_line_alone(rt: HostRuntime) -> Result<(), Fail> {
    let alloc = rt.alloc();
    for row in REFUSED.lines() {
        let (texts, line) = row.split_once(" => ").ok_or("a row")?;
        let script = format!(in alloc;
            "steps = [{texts}]\nelement = [{{ id = 1, ce = 0x40000001 }}]\ncontroller = [{{ id = 0x40000001 }}]\n"
        )?;
        let wanted = format!(in alloc; "refused script {line}\n")?;
        let (status, written) = ran(alloc, "world", script.into_bytes(), 4096)?;
        assert_eq!(rt; status, 5, "{row}");
        assert_eq!(rt; written.as_slice(), wanted.as_bytes(), "{row}");
    }
    Ok(())
}

// The status of `world` in two pieces, and how much it wrote, where a call of the source fails.
fn played_from_failing(alloc: Global, call: u64) -> Result<(u8, usize), Fail> {
    let words = words_of(alloc, "world")?;
    let script = Vec::from_slice(alloc, SCRIPT.as_bytes())?;
    let mut input = MemSource::new(script, 80, failing(alloc, call)?);
    let mut out = SureSink::new(alloc);
    let status = run_without_hub(alloc, words.as_slice(), &mut input, &mut out);
    Ok((status, out.bytes().len()))
}

// The same where a call of the sink fails.
fn played_to_failing(alloc: Global, call: u64) -> Result<(u8, usize), Fail> {
    let words = words_of(alloc, "world")?;
    let script = Vec::from_slice(alloc, SCRIPT.as_bytes())?;
    let mut input = SureSource::new(script, 4096);
    let mut out = MemSink::new(alloc, failing(alloc, call)?);
    let status = run_without_hub(alloc, words.as_slice(), &mut input, &mut out);
    Ok((status, out.bytes().len()))
}

#[test]
fn each_call_of_the_source_fails_in_turn(rt: HostRuntime) -> Result<(), Fail> {
    // Two pieces and the end are three reads.
    for (call, ended) in [
        (1, (2, 0)),
        (2, (2, 0)),
        (3, (2, 0)),
        (4, (0, REPORT.len())),
    ] {
        assert!(rt;
            played_from_failing(rt.alloc(), call)? == ended,
            "at {call}"
        );
    }
    Ok(())
}

#[test]
fn each_call_of_the_sink_fails_in_turn(rt: HostRuntime) -> Result<(), Fail> {
    // The report is one write. Then comes the flush.
    let size = REPORT.len();
    for (call, ended) in [(1, (3, 0)), (2, (3, size)), (3, (0, size))] {
        assert!(rt; played_to_failing(rt.alloc(), call)? == ended, "at {call}");
    }
    Ok(())
}
