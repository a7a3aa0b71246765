// A library as a maker writes it, and what is read of it.
use fc_library::library_from_slice;
use std::alloc::Global;
use std::test::Fail;

// The library Port as a maker writes it.
pub(crate) const PORT: &str = r#"
[[class]]
id = 0x1001
name = "Port"
event_base = 60

[[class.component]]
id = 1
name = "speed"
type = "u32"
max = 1000

[[class.component]]
id = 2
name = "mtu"
type = "u32"
max = 9000

[[class.component]]
id = 3
name = "queue"
type = "u32"

[[class.component]]
id = 4
name = "ports"
type = "array"
entries = 4
keys = [{ id = 1, fields = [1] }]

[class.component.entry]
type = "struct"
fields = [
    { id = 1, name = "name", type = "string", length = 16 },
    { id = 2, name = "rate", type = "u32" },
    { id = 3, name = "up", type = "bool" },
]

[[class.component]]
id = 5
name = "note"
type = "string"
length = 40
optional = true

[[class.component]]
id = 6
name = "serial"
type = "u32"
access = 1

[[class.event]]
id = 1
name = "fast"
when = "greater"
target = [1]

[[instance]]
class = 0x1001
id = 3

[[instance]]
class = 0x1001
id = 1

[[instance]]
class = 0x1001
id = 2
"#;

// What it means: the class, with its six components, its event and its three instances, each on a line.
const MEANT: &str =
    r#"Library { classes: List { items: [Class { id: 4097, name: Text { text: "Port" }, components: List { items: [
Component { id: 1, name: Text { text: "speed" }, ty: Number { bytes: 4, signed: false, min: 0, max: 1000 }, access: 3, optional: false },
Component { id: 2, name: Text { text: "mtu" }, ty: Number { bytes: 4, signed: false, min: 0, max: 9000 }, access: 3, optional: false },
Component { id: 3, name: Text { text: "queue" }, ty: Number { bytes: 4, signed: false, min: 0, max: 4294967295 }, access: 3, optional: false },
Component { id: 4, name: Text { text: "ports" }, ty: Array { entry: Boxed { inner: Struct { fields: List { items: [
Field { id: 1, name: Text { text: "name" }, ty: String { length: 16 } },
Field { id: 2, name: Text { text: "rate" }, ty: Number { bytes: 4, signed: false, min: 0, max: 4294967295 } },
Field { id: 3, name: Text { text: "up" }, ty: Bool }] } } }, entries: 4, keys: List { items: [KeyDecl { id: 1, fields: List { items: [1] } }] } }, access: 3, optional: false },
Component { id: 5, name: Text { text: "note" }, ty: String { length: 40 }, access: 3, optional: true },
Component { id: 6, name: Text { text: "serial" }, ty: Number { bytes: 4, signed: false, min: 0, max: 4294967295 }, access: 1, optional: false }] }, event_base: 60, events: List { items: [
EventDecl { id: 1, name: Text { text: "fast" }, when: Greater, target: List { items: [1] } }] } }] } }
Instances { pairs: List { items: [(4097, 1), (4097, 2), (4097, 3)] } }"#;

// The same on one line.
fn meant(alloc: Global) -> Result<String, Fail> {
    let mut text = String::new(alloc);
    for line in MEANT.lines() {
        text.push_str(line)?;
        if line.ends_with(",") || line.ends_with("} }] } }") {
            text.push_str(" ")?;
        }
    }
    Ok(text)
}

#[test]
fn port_is_read(rt: HostRuntime) -> Result<(), Fail> {
    let alloc = rt.alloc();
    let read = library_from_slice(alloc, PORT.as_bytes());
    let (library, instances) = read.ok().ok_or("Port")?;
    let told = format!(in alloc; "{library:?} {instances:?}")?;
    assert_eq!(rt; told, meant(alloc)?);
    Ok(())
}
