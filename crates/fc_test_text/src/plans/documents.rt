// What is told of good documents.
use crate::plans::telling::told;
use std::test::Fail;

// Elements are in the order of the document; participants rise, and the changes of each one are in the order of the document.
const GOOD: &str = r#"
element = [{ id = 7 }, { id = 0x3FFFFFFF }, { id = 1 }]

[[transaction]]
name = "add_Route1"
give_up = 5000
change = [
  { element = 7, body = "lfb 00001001 00000001\n  SET\n    path 1\n      full 0000000A\n" },
  { element = 1, body = "lfb 00001001 00000002\n  DEL\n    path 5\n" },
  { element = 7, body = "lfb 00001001 00000003\n  SET\n    path 2\n      full 00000001\n" },
  { element = 1, body = "lfb 00001001 00000001\n  SET\n    path 2\n      full 00000002\n" },
]

[[transaction]]
name = "_"
scoped = true
change = [{ element = 0x3FFFFFFF, body = "lfb 00001001 00000001\n  DEL\n    path 5\n" }]
"#;

const TOLD: &str = "element 7
element 1073741823
element 1
whole add_Route1 until 5000
Config from=00000000 to=00000001 corr=0000000000000000 flags=00000000
  lfb 00001001 00000002
    DEL
      path 5
Config from=00000000 to=00000001 corr=0000000000000000 flags=00000000
  lfb 00001001 00000001
    SET
      path 2
        full 00000002
Config from=00000000 to=00000007 corr=0000000000000000 flags=00000000
  lfb 00001001 00000001
    SET
      path 1
        full 0000000A
Config from=00000000 to=00000007 corr=0000000000000000 flags=00000000
  lfb 00001001 00000003
    SET
      path 2
        full 00000001
scoped _
Config from=00000000 to=3FFFFFFF corr=0000000000000000 flags=00000000
  lfb 00001001 00000001
    DEL
      path 5
";

#[test]
fn a_good_document_has_its_plan(rt: HostRuntime) -> Result<(), Fail> {
    let told = told(rt.alloc(), GOOD.as_bytes())?;
    assert_eq!(rt; told.as_slice(), TOLD.as_bytes());
    Ok(())
}

#[test]
fn no_transaction_is_needed(rt: HostRuntime) -> Result<(), Fail> {
    let told = told(rt.alloc(), "element = []\n".as_bytes())?;
    assert!(rt; told.is_empty());
    Ok(())
}
