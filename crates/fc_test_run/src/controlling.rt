// A control element of one element: what it sends it, and how it ends.
use crate::tables::first_wrong_under;
use std::test::Fail;

const WORDS: &str = "control 40000001 r 1 9 a";

// The plan of element 1, without a transaction.
const PLAN: &str = "[[element]]\nid = 1\n";

// And with one that sets a component of it.
const CHANGE: &str = r#"[[element]]
id = 1
[[transaction]]
name = "t"
[[transaction.change]]
element = 1
body = """
lfb 00001001 00000001
  SET
    path 1
      full 0000000A
"""
"#;

// An element is accepted, claimed and asked, in bytes; and another sender than the element is refused.
const GREETED: &str = "\
open 1 =
10010006 00000001 FFFFFFFD 00000000 00000000 C0000000 = 10110008 40000001 00000001 00000000 00000000 00000000 00100008 00000000 1003000F 40000001 00000001 00000101 00000000 C0400000 10000024 0001F001 00000001 00010018 01100014 00000001 00000001 01120008 00000101
1013000F 00000001 40000001 00000101 00000000 00000000 10000024 0001F001 00000001 00030018 01100014 00000001 00000001 01140008 00000000 = 10040010 40000001 00000001 00000101 00000001 C0000000 10000028 0001F001 00000001 0007001C 0110000C 00000001 00000001 0110000C 00000001 00000007
controller 1 round 1 epoch 257

open 1 =
10010006 00000002 FFFFFFFD 00000000 00000007 C0000000 100F0006 00000002 40000001 00000000 00000000 C0000000 = 10110008 40000001 00000002 00000000 00000007 00000000 00100008 00000001
controller 1 round 1 epoch 257";

#[test]
fn an_element_is_accepted_claimed_and_asked(rt: HostRuntime) -> Result<(), Fail> {
    assert_eq!(rt;
        first_wrong_under(rt.alloc(), WORDS, PLAN, GREETED, 65_536)?,
        None
    );
    Ok(())
}

// Where it is cut short, the transaction is not begun or not settled.
const BEGUN: &str = "\
open 1 =
AssociationSetup C0000000 00000001 FFFFFFFD 0000000000000000 = 1 AssociationSetupResponse 0000000000000000 00000000 1 Config 0000010100000000 C0400000
ConfigResponse 00000000 00000001 40000001 0000010100000000 | lfb 0001F001 00000001 | SET-RESPONSE | path 1 | code 00 = 1 Query 0000010100000001 C0000000
controller 1 round 1 epoch 257
unbegun t
status 7

open 1 =
AssociationSetup C0000000 00000001 FFFFFFFD 0000000000000000 = 1 AssociationSetupResponse 0000000000000000 00000000 1 Config 0000010100000000 C0400000
ConfigResponse 00000000 00000001 40000001 0000010100000000 | lfb 0001F001 00000001 | SET-RESPONSE | path 1 | code 00 = 1 Query 0000010100000001 C0000000
held 1 = 1 Config 0000010100000001 C0600000
controller 1 round 1 epoch 257
txn 257.1 unsettled
status 7

open 1 =
AssociationSetup C0000000 00000001 FFFFFFFD 0000000000000000 = 1 AssociationSetupResponse 0000000000000000 00000000 1 Config 0000010100000000 C0400000
ConfigResponse 00000000 00000001 40000001 0000010100000000 | lfb 0001F001 00000001 | SET-RESPONSE | path 1 | code 00 = 1 Query 0000010100000001 C0000000
held 1 = 1 Config 0000010100000001 C0600000
code 1 00 = 1 Config 0000010100000002 C0680000
code 2 00 = 1 Config 0000010100000003 C0700000
code 3 00 = 1 Config 0000010100000004 C0700000
controller 1 round 1 epoch 257
txn 257.1 unsettled
status 7

open 1 =
AssociationSetup C0000000 00000001 FFFFFFFD 0000000000000000 = 1 AssociationSetupResponse 0000000000000000 00000000 1 Config 0000010100000000 C0400000
ConfigResponse 00000000 00000001 40000001 0000010100000000 | lfb 0001F001 00000001 | SET-RESPONSE | path 1 | code 00 = 1 Query 0000010100000001 C0000000
held 1 = 1 Config 0000010100000001 C0600000
code 1 00 = 1 Config 0000010100000002 C0680000
code 2 00 = 1 Config 0000010100000003 C0700000
code 3 00 = 1 Config 0000010100000004 C0700000
code 4 00 = 1 Config 0000010100000005 C0400000
controller 1 round 1 epoch 257
txn 257.1 completed";

#[test]
fn a_transaction_is_begun_and_completed(rt: HostRuntime) -> Result<(), Fail> {
    assert_eq!(rt;
        first_wrong_under(rt.alloc(), WORDS, CHANGE, BEGUN, 65_536)?,
        None
    );
    Ok(())
}

// The event that deposes it is the last, also where it is the last that is to be taken.
const DEPOSED: &str = "\
open 1 =
AssociationSetup C0000000 00000001 FFFFFFFD 0000000000000000 = 1 AssociationSetupResponse 0000000000000000 00000000 1 Config 0000010100000000 C0400000
ConfigResponse 00000000 00000001 40000001 0000010100000000 | lfb 0001F001 00000001 | SET-RESPONSE | path 1 | code 00 = 1 Query 0000010100000001 C0000000
QueryResponse 00000000 00000001 40000001 0000010100000001 | lfb 0001F001 00000001 | GET-RESPONSE | path 1 | full 00000201 | path 7 | full - =
AssociationSetup C0000000 00000001 FFFFFFFD 0000000000000000 =
controller 1 round 1 epoch 257 deposed 513
unbegun t
status 8";

#[test]
fn a_greater_epoch_ends_it(rt: HostRuntime) -> Result<(), Fail> {
    for words in [WORDS, "control 40000001 r 1 4 a"] {
        assert_eq!(rt;
            first_wrong_under(rt.alloc(), words, CHANGE, DEPOSED, 65_536)?,
            None
        );
    }
    Ok(())
}

// The events that may be taken are one, two or three.
const ONE: &str = "\
open 1 =
AssociationSetup C0000000 00000001 FFFFFFFD 0000000000000000 =
ConfigResponse 00000000 00000001 40000001 0000010100000000 | lfb 0001F001 00000001 | SET-RESPONSE | path 1 | code 00 =
controller 1 round 1 epoch 257
status 10";

const TWO: &str = "\
open 1 =
AssociationSetup C0000000 00000001 FFFFFFFD 0000000000000000 = 1 AssociationSetupResponse 0000000000000000 00000000 1 Config 0000010100000000 C0400000
ConfigResponse 00000000 00000001 40000001 0000010100000000 | lfb 0001F001 00000001 | SET-RESPONSE | path 1 | code 00 =
controller 1 round 1 epoch 257
status 10";

const THREE: &str = "\
open 1 =
AssociationSetup C0000000 00000001 FFFFFFFD 0000000000000000 = 1 AssociationSetupResponse 0000000000000000 00000000 1 Config 0000010100000000 C0400000
ConfigResponse 00000000 00000001 40000001 0000010100000000 | lfb 0001F001 00000001 | SET-RESPONSE | path 1 | code 00 = 1 Query 0000010100000001 C0000000
controller 1 round 1 epoch 257
status 10";

#[test]
fn no_more_events_are_taken_than_are_to_be(rt: HostRuntime) -> Result<(), Fail> {
    for (words, case) in [
        ("control 40000001 r 1 1 a", ONE),
        ("control 40000001 r 1 2 a", TWO),
        ("control 40000001 r 1 3 a", THREE),
    ] {
        assert_eq!(rt;
            first_wrong_under(rt.alloc(), words, PLAN, case, 65_536)?,
            None
        );
    }
    Ok(())
}
