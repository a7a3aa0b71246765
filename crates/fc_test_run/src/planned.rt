// Plans of two transactions, which a control element carries out with two elements: when each is begun, given up and told to be forgotten.
use crate::tables::first_wrong_under;
use std::test::Fail;

const WORDS: &str = "control 40000001 r 2 99 a b";

// Both transactions hold all of their participants.
const WHOLE: &str = r#"[[element]]
id = 1
[[element]]
id = 2
[[transaction]]
name = "first"
[[transaction.change]]
element = 1
body = """
lfb 00001001 00000001
  SET
    path 1
      full 0000000A
"""
[[transaction.change]]
element = 2
body = """
lfb 00001001 00000001
  SET
    path 1
      full 0000000A
"""
[[transaction]]
name = "second"
[[transaction.change]]
element = 1
body = """
lfb 00001001 00000002
  SET
    path 1
      full 0000000A
"""
"#;

// Each holds an instance of its own.
const SCOPED: &str = r#"[[element]]
id = 1
[[element]]
id = 2
[[transaction]]
name = "first"
scoped = true
[[transaction.change]]
element = 1
body = """
lfb 00001001 00000001
  SET
    path 1
      full 0000000A
"""
[[transaction.change]]
element = 2
body = """
lfb 00001001 00000001
  SET
    path 1
      full 0000000A
"""
[[transaction]]
name = "second"
scoped = true
[[transaction.change]]
element = 1
body = """
lfb 00001001 00000002
  SET
    path 1
      full 0000000A
"""
"#;

// Both are to be given up.
const GIVEN_UP: &str = r#"[[element]]
id = 1
[[element]]
id = 2
[[transaction]]
name = "first"
give_up = 100
[[transaction.change]]
element = 1
body = """
lfb 00001001 00000001
  SET
    path 1
      full 0000000A
"""
[[transaction.change]]
element = 2
body = """
lfb 00001001 00000001
  SET
    path 1
      full 0000000A
"""
[[transaction]]
name = "second"
give_up = 300
[[transaction.change]]
element = 1
body = """
lfb 00001001 00000002
  SET
    path 1
      full 0000000A
"""
"#;

// The second transaction waits for the first, though its own participant is ready before, and while that participant has settled alone.
const ONE_BY_ONE: &str = "\
open 1 =
setup = 1 AssociationSetupResponse 0000010100000000 00000000 1 Config 0000010100000000 C0400000
code 0 00 = 1 Query 0000010100000001 C0000000
held 1 =
open 2 =
@2 setup = 2 AssociationSetupResponse 0000010100000000 00000000 2 Config 0000010100000000 C0400000
@2 code 0 00 = 2 Query 0000010100000001 C0000000
@2 held 1 = 1 Config 0000010100000001 C0600000 2 Config 0000010100000001 C0600000
code 1 00 = 1 Config 0000010100000002 C0680000
code 2 00 = 1 Config 0000010100000003 C0700000
code 3 00 =
@2 code 1 00 = 2 Config 0000010100000002 C0680000
@2 code 2 00 = 2 Config 0000010100000003 C0700000
@2 code 3 00 = 1 Config 0000010100000004 C0700000 2 Config 0000010100000004 C0700000
code 4 00 =
@2 code 4 00 = 1 Config 0000010100000005 C0600000
code 5 00 = 1 Config 0000010100000006 C0680000
code 6 00 = 1 Config 0000010100000007 C0700000
code 7 00 = 1 Config 0000010100000008 C0700000
code 8 00 = 1 Config 0000010100000009 C0400000 2 Config 0000010100000005 C0400000
code 9 00 =
@2 code 5 00 =
controller 1 round 1 epoch 257
txn 257.1 completed
txn 257.2 completed";

// The second is begun with the first, and settles before it.
const SIDE_BY_SIDE: &str = "\
open 1 =
setup = 1 AssociationSetupResponse 0000010100000000 00000000 1 Config 0000010100000000 C0400000
code 0 00 = 1 Query 0000010100000001 C0000000
held 1 =
open 2 =
@2 setup = 2 AssociationSetupResponse 0000010100000000 00000000 2 Config 0000010100000000 C0400000
@2 code 0 00 = 2 Query 0000010100000001 C0000000
@2 held 1 = 1 Config 0000010100000001 C0600000 2 Config 0000010100000001 C0600000
code 1 00 = 1 Config 0000010100000002 C0680000
code 2 00 = 1 Config 0000010100000003 C0700000
code 3 00 = 1 Config 0000010100000004 C0600000
code 4 00 = 1 Config 0000010100000005 C0680000
code 5 00 = 1 Config 0000010100000006 C0700000
code 6 00 = 1 Config 0000010100000007 C0700000
code 7 00 =
@2 code 1 00 = 2 Config 0000010100000002 C0680000
@2 code 2 00 = 2 Config 0000010100000003 C0700000
@2 code 3 00 = 1 Config 0000010100000008 C0700000 2 Config 0000010100000004 C0700000
code 8 00 =
@2 code 4 00 = 1 Config 0000010100000009 C0400000 2 Config 0000010100000005 C0400000
controller 1 round 1 epoch 257
txn 257.1 completed
txn 257.2 completed";

// A moment gives up neither what is not begun nor what is decided, and a transaction is aborted at once where an element waits for it.
const IN_TIME: &str = "\
open 1 =
setup = 1 AssociationSetupResponse 0000010100000000 00000000 1 Config 0000010100000000 C0400000
code 0 00 = 1 Query 0000010100000001 C0000000
held 1 =
open 2 =
@2 setup = 2 AssociationSetupResponse 0000010100000000 00000000 2 Config 0000010100000000 C0400000
@2 code 0 00 = 2 Query 0000010100000001 C0000000
moment 300 =
@2 held 1 = 1 Config 0000010100000001 C0600000 2 Config 0000010100000001 C0600000
code 1 00 = 1 Config 0000010100000002 C0680000
code 2 00 = 1 Config 0000010100000003 C0700000
code 3 00 =
moment 99 =
moment 100 = 1 Config 0000010100000004 C0780000
moment 101 =
@2 code 1 00 = 2 Config 0000010100000002 C0780000
code 4 00 =
moment 300 =
@2 code 2 00 = 1 Config 0000010100000005 C0600000
code 5 00 = 1 Config 0000010100000006 C0680000
moment 299 =
code 6 00 = 1 Config 0000010100000007 C0700000
code 7 00 = 1 Config 0000010100000008 C0700000
moment 300 =
code 8 00 = 1 Config 0000010100000009 C0400000 2 Config 0000010100000003 C0400000
controller 1 round 1 epoch 257
txn 257.1 aborted
txn 257.2 completed";

// Elements that have not answered yet are told of it once they have.
const AT_ONCE: &str = "\
open 1 =
setup = 1 AssociationSetupResponse 0000010100000000 00000000 1 Config 0000010100000000 C0400000
code 0 00 = 1 Query 0000010100000001 C0000000
held 1 =
open 2 =
@2 setup = 2 AssociationSetupResponse 0000010100000000 00000000 2 Config 0000010100000000 C0400000
@2 code 0 00 = 2 Query 0000010100000001 C0000000
@2 held 1 = 1 Config 0000010100000001 C0600000 2 Config 0000010100000001 C0600000
moment 100 =
code 1 00 = 1 Config 0000010100000002 C0780000
@2 code 1 00 = 2 Config 0000010100000002 C0780000
code 2 00 =
@2 code 2 00 = 1 Config 0000010100000003 C0600000
moment 300 =
code 3 00 = 1 Config 0000010100000004 C0780000
code 4 00 = 1 Config 0000010100000005 C0400000 2 Config 0000010100000003 C0400000
controller 1 round 1 epoch 257
txn 257.1 aborted
txn 257.2 aborted";

#[test]
fn a_transaction_waits_for_the_one_before_it(rt: HostRuntime) -> Result<(), Fail> {
    assert_eq!(rt;
        first_wrong_under(rt.alloc(), WORDS, WHOLE, ONE_BY_ONE, 65_536)?,
        None
    );
    Ok(())
}

#[test]
fn transactions_on_other_instances_begin_at_once(rt: HostRuntime) -> Result<(), Fail> {
    assert_eq!(rt;
        first_wrong_under(rt.alloc(), WORDS, SCOPED, SIDE_BY_SIDE, 65_536)?,
        None
    );
    Ok(())
}

#[test]
fn a_transaction_is_given_up_at_its_moment(rt: HostRuntime) -> Result<(), Fail> {
    assert_eq!(rt;
        first_wrong_under(rt.alloc(), WORDS, GIVEN_UP, IN_TIME, 65_536)?,
        None
    );
    Ok(())
}

#[test]
fn what_waits_is_answered_before_an_abort(rt: HostRuntime) -> Result<(), Fail> {
    assert_eq!(rt;
        first_wrong_under(rt.alloc(), WORDS, GIVEN_UP, AT_ONCE, 65_536)?,
        None
    );
    Ok(())
}
