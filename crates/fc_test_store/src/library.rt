// The classes of the tables, and a configuration of them.
use fc_base::Memory;
use fc_lfbs::built_in;
use fc_library::library_from_slice;
use fc_store::Store;
use std::alloc::Global;
use std::test::Fail;

// Ports as a maker writes them; a class of components that lack a right and are absent, and of a struct with rows that have two keys; a class of
// structs with tables in them, of tables and of a text that may be absent; and a class of one truth value.
const DOCUMENT: &str = r#"
[[class]]
id = 4097
name = "Port"
event_base = 60
component = [
  { id = 1, name = "speed", type = "u32", max = 1000 },
  { id = 2, name = "mtu", type = "u32", max = 9000 },
  { id = 3, name = "queue", type = "u32" },
  { id = 4, name = "ports", type = "array", entries = 4, keys = [{ id = 1, fields = [1] }], entry = { type = "struct", fields = [
    { id = 1, name = "name", type = "string", length = 16 },
    { id = 2, name = "rate", type = "u32" },
    { id = 3, name = "up", type = "bool" } ] } },
  { id = 5, name = "note", type = "string", length = 40, optional = true },
  { id = 6, name = "serial", type = "u32", access = 1 } ]
event = [{ id = 1, name = "fast", when = "greater", target = [1] }]

[[class]]
id = 4098
name = "Cause"
component = [
  { id = 1, name = "told", type = "u32", access = 1, optional = true },
  { id = 2, name = "kept", type = "u32", access = 2, optional = true },
  { id = 3, name = "box", type = "struct", fields = [
    { id = 1, name = "rows", type = "array", entries = 2, keys = [{ id = 1, fields = [1] }, { id = 2, fields = [2, 1] }], entry = { type = "struct", fields = [
      { id = 1, name = "name", type = "u8" },
      { id = 2, name = "number", type = "u8" } ] } },
    { id = 2, name = "flag", type = "bool" } ] } ]

[[class]]
id = 4099
name = "Whole"
component = [
  { id = 1, name = "box", type = "struct", fields = [
    { id = 1, name = "number", type = "u32" },
    { id = 2, name = "rows", type = "array", entries = 2, keys = [{ id = 1, fields = [1] }], entry = { type = "struct", fields = [
      { id = 1, name = "name", type = "string", length = 8 },
      { id = 2, name = "value", type = "u8" } ] } } ] },
  { id = 2, name = "table", type = "array", entries = 65536, keys = [{ id = 1, fields = [1] }], entry = { type = "struct", fields = [
    { id = 1, name = "key", type = "u32" },
    { id = 2, name = "value", type = "u32" } ] } },
  { id = 3, name = "text", type = "string", length = 8, optional = true },
  { id = 4, name = "ports", type = "array", entries = 2, keys = [{ id = 1, fields = [1] }], entry = { type = "struct", fields = [
    { id = 1, name = "name", type = "string", length = 16 },
    { id = 2, name = "mtu", type = "u32" },
    { id = 3, name = "up", type = "bool" } ] } },
  { id = 5, name = "bay", type = "struct", fields = [
    { id = 1, name = "ports", type = "array", entries = 2, keys = [{ id = 1, fields = [1] }], entry = { type = "struct", fields = [
      { id = 1, name = "name", type = "string", length = 16 },
      { id = 2, name = "mtu", type = "u32" },
      { id = 3, name = "up", type = "bool" } ] } } ] },
  { id = 6, name = "four", type = "array", entries = 4, keys = [{ id = 1, fields = [1] }], entry = { type = "struct", fields = [
    { id = 1, name = "first", type = "u32" },
    { id = 2, name = "second", type = "u32" } ] } },
  { id = 7, name = "numbers", type = "array", entries = 65536, entry = { type = "u32" } } ]

[[class]]
id = 4100
name = "Truth"
component = [{ id = 1, name = "truth", type = "bool" }]

[[instance]]
class = 4097
id = 1

[[instance]]
class = 4097
id = 2

[[instance]]
class = 4098
id = 1

[[instance]]
class = 4099
id = 1
"#;

// The document with so many instances of the last class.
fn document(alloc: Global, truths: u32) -> Result<String, Fail> {
    let mut text = String::from_str(alloc, DOCUMENT)?;
    for id in 1..=truths {
        let instance = format!(in alloc; "[[instance]]\nclass = 4100\nid = {id}\n")?;
        text.push_str(&instance)?;
    }
    Ok(text)
}

fn read(alloc: Global, document: &str) -> Result<Store, Memory> {
    let Ok((library, instances)) = library_from_slice(alloc, document.as_bytes()) else {
        return Err(Memory);
    };
    let own = built_in(alloc)?;
    let (library, instances) = library.with_built_in(instances, own)?;
    Store::new(alloc, &library, &instances)
}

// The configuration of an element with these classes and its own, as it opens, with so many instances of the last class.
pub(crate) fn opened(alloc: Global, truths: u32) -> Result<Store, Fail> {
    let document = document(alloc, truths)?;
    Ok(read(alloc, &document)?)
}
