// As many elements and control elements as a script may have.
use crate::cases::is_reported;
use crate::network::script_from;
use crate::steps::played;
use std::alloc::Global;
use std::test::Fail;

// The last control element begins the greatest round, the last element has a connection of it, and the first one sees the greatest moment.
const STEPS: &str =
    "steps = [\"start 16 16777215\", \"open 255 16\", \"moment 1 18446744073709551615\"]\n";

// The document of it.
fn document(alloc: Global) -> Result<String, Fail> {
    let mut document = String::from_str(alloc, STEPS)?;
    for place in 0..255u32 {
        let id = place + 1;
        let table = format!(in alloc; "[[element]]\nid = {id}\nce = 0x40000001\n")?;
        document.push_str(table.as_str())?;
    }
    for place in 0..16u32 {
        let id = 0x4000_0001 + place;
        let table = format!(in alloc; "[[controller]]\nid = {id}\n")?;
        document.push_str(table.as_str())?;
    }
    Ok(document)
}

// The report, in which control element 16 runs and one message was sent.
fn report(alloc: Global) -> Result<String, Fail> {
    let mut lines = String::new(alloc);
    for place in 0..255u32 {
        let id = place + 1;
        let line = format!(in alloc; "element {id} epoch 0 ce 40000001 sequence 0\n")?;
        lines.push_str(line.as_str())?;
    }
    for place in 0..15u32 {
        let number = place + 1;
        let line = format!(in alloc; "controller {number} stopped\n")?;
        lines.push_str(line.as_str())?;
    }
    lines.push_str("controller 16 round 16777215 epoch 4294967056\nsent 1\n")?;
    Ok(lines)
}

#[test]
fn the_greatest_network_is_played(rt: HostRuntime) -> Result<(), Fail> {
    let alloc = rt.alloc();
    let document = document(alloc)?;
    let script = script_from(alloc, document.as_str())?;
    let world = played(alloc, &script)?;
    let wanted = report(alloc)?;
    assert!(rt; is_reported(alloc, &world, wanted.as_str())?);
    Ok(())
}
