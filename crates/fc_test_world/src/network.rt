// The network that most tests play, and what it tells of itself.
use fc_base::Memory;
use fc_msg::encode;
use fc_scripts::{Script, script_from_slice};
use fc_world::World;
use std::alloc::Global;
use std::test::Fail;

// Elements 1 and 2 with a port each, two control elements, and transactions: `t` changes both elements, `a` does so within scopes, and `ro`
// changes what can only be read.
const NETWORK: &str = r#"
element = [{ id = 1, ce = 0x40000001 }, { id = 2, ce = 0x40000001 }]
controller = [{ id = 0x40000001 }, { id = 0x40000002 }]

[[class]]
id = 0x1001
name = "Port"
component = [
  { id = 1, name = "speed", type = "u32", max = 1000 },
  { id = 6, name = "serial", type = "u32", access = 1 } ]

[[instance]]
class = 0x1001
id = 1

[[transaction]]
name = "t"
change = [
  { element = 1, body = "lfb 00001001 00000001\n  SET\n    path 1\n      full 0000000A\n" },
  { element = 2, body = "lfb 00001001 00000001\n  SET\n    path 1\n      full 00000014\n" },
]

[[transaction]]
name = "a"
scoped = true
change = [
  { element = 1, body = "lfb 00001001 00000001\n  SET\n    path 1\n      full 0000000A\n" },
  { element = 2, body = "lfb 00001001 00000001\n  SET\n    path 1\n      full 00000014\n" },
]

[[transaction]]
name = "ro"
change = [{ element = 1, body = "lfb 00001001 00000001\n  SET\n    path 6\n      full 00000001\n" }]
"#;

// The script of these steps in that network: one step a line.
pub(crate) fn script_of(alloc: Global, steps: &str) -> Result<Script, Fail> {
    let mut document = String::from_str(alloc, "steps = [\n")?;
    for step in steps.lines() {
        let text = format!(in alloc; "\"{step}\",\n")?;
        document.push_str(text.as_str())?;
    }
    document.push_str("]\n")?;
    document.push_str(NETWORK)?;
    script_from(alloc, document.as_str())
}

// The script of a document.
pub(crate) fn script_from(alloc: Global, document: &str) -> Result<Script, Fail> {
    match script_from_slice(alloc, document.as_bytes()) {
        Ok(script) => Ok(script),
        Err(_) => Err(Fail::from("no script")),
    }
}

// The world of a script before its first step.
pub(crate) fn first(alloc: Global, script: &Script) -> Result<World, Fail> {
    made(World::new(alloc, script))
}

fn made(world: Result<World, Memory>) -> Result<World, Fail> {
    Ok(world.ok().ok_or("memory")?)
}

// The canonical bytes of the message of this number.
pub(crate) fn message(alloc: Global, world: &World, number: usize) -> Result<Vec<u8>, Fail> {
    let message = world.message(number).ok_or("no such message")?;
    let mut bytes = Vec::new(alloc);
    encode(message, &mut bytes).ok().ok_or("no bytes")?;
    Ok(bytes)
}

// The report on a world.
pub(crate) fn reported(alloc: Global, world: &World) -> Result<Vec<u8>, Fail> {
    let mut text = Vec::new(alloc);
    world.report(&mut text).ok().ok_or("memory")?;
    Ok(text)
}
