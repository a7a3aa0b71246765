/// A library in TOML: class 0x1001 with a component of each kind and an event, class 0x1002 with bytes, and instances of both.
pub const PORTS: &str = r#"
[[class]]
id = 0x1001
name = "Port"
event_base = 60
component = [
  { id = 1, name = "speed", type = "u32", max = 1000 },
  { id = 2, name = "mtu", type = "u32", max = 9000 },
  { id = 3, name = "queue", type = "u32" },
  { id = 4, name = "ports", type = "array", entries = 4, keys = [{ id = 1, fields = [1] }], entry = { type = "struct", fields = [
    { id = 1, name = "name", type = "string", length = 16 },
    { id = 2, name = "rate", type = "u32" },
    { id = 3, name = "up", type = "bool" } ] } },
  { id = 5, name = "note", type = "string", length = 40, optional = true },
  { id = 6, name = "serial", type = "u32", access = 1 } ]
event = [{ id = 1, name = "fast", when = "greater", target = [1] }]

[[class]]
id = 0x1002
name = "Block"
component = [
  { id = 3, name = "hidden", type = "u32", access = 2 },
  { id = 1, name = "many", type = "bytes", length = 32768 },
  { id = 2, name = "few", type = "bytes", length = 2 } ]

[[instance]]
class = 0x1001
id = 1

[[instance]]
class = 0x1001
id = 2

[[instance]]
class = 0x1001
id = 3

[[instance]]
class = 0x1002
id = 1
"#;
