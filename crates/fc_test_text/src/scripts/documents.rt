// What is told of good documents.
use crate::scripts::telling::told;
use std::test::Fail;

// Elements, controllers, transactions and steps are in the order of the document; instances and participants rise. A step may name what the
// document does not: that is refused when the step is run.
const GOOD: &str = r#"
steps = ["start 2 1", "deliver 7-7", "deliver 1-3", "deliver 4", "begin 9 nowhere", "restart 5", "forget 3"]
element = [{ id = 9, ce = 0x40000102 }, { id = 0x3FFFFFFF, ce = 0x40000001 }, { id = 1, ce = 0x40000102 }]
controller = [{ id = 0x40000102 }, { id = 0x40000001 }]
class = [{ id = 7, name = "Lamp", component = [{ id = 1, name = "on", type = "bool" }] }, { id = 4097, name = "Port" }]
instance = [{ class = 4097, id = 1 }, { class = 7, id = 2 }, { class = 7, id = 1 }]

[[transaction]]
name = "add_Route1"
change = [
  { element = 9, body = "lfb 00001001 00000001\n  SET\n    path 1\n      full 0000000A\n" },
  { element = 1, body = "lfb 00001001 00000002\n  DEL\n    path 5\n" },
  { element = 9, body = "lfb 00001001 00000003\n  SET\n    path 2\n      full 00000001\n" },
]

[[transaction]]
name = "_"
scoped = true
change = [{ element = 0x3FFFFFFF, body = "lfb 00001001 00000001\n  DEL\n    path 5\n" }]
"#;

const TOLD: &str = "class 7 Lamp
class 4097 Port
instance 7 1
instance 7 2
instance 4097 1
element 9 of 40000102
element 1073741823 of 40000001
element 1 of 40000102
controller 40000102
controller 40000001
whole add_Route1 1:1 9:2
scoped _ 1073741823:1
1 start 2 1
2 deliver 7 to 7
3 deliver 1 to 3
4 deliver 4 to 4
5 begin 9 nowhere
6 restart 5
7 forget 3
";

#[test]
fn a_good_document_has_its_script(rt: HostRuntime) -> Result<(), Fail> {
    let told = told(rt.alloc(), GOOD.as_bytes())?;
    assert_eq!(rt; told.as_slice(), TOLD.as_bytes());
    Ok(())
}

#[test]
fn nothing_has_to_stand_in_the_arrays(rt: HostRuntime) -> Result<(), Fail> {
    let told = told(
        rt.alloc(),
        "element = []\ncontroller = []\nsteps = []\n".as_bytes(),
    )?;
    assert!(rt; told.is_empty());
    Ok(())
}
