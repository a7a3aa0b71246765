// Transactions beside each other, and beside all else.
use crate::tables::first_wrong;
use fc_test_kit::PORTS;
use std::test::Fail;

// Two over an instance each, in every order of their ends.
const ENDS: &str = "\
-- complete the first, complete the other
AssociationSetupResponse 00000000 | result 0 =
claim 40000001 00000101 = 1 ConfigResponse 00
start 1 1 1 | lfb 00001001 00000001 | SET | path 1 | full 0000000A = 1 ConfigResponse 00 00
start 2 2 2 | lfb 00001001 00000002 | SET | path 1 | full 0000001E = 1 ConfigResponse 00 00
change 3 1 | lfb 00001001 00000001 | SET | path 2 | full 00000001 = 1 ConfigResponse 00 00
prepare 4 2 = 1 ConfigResponse 00 00
prepare 5 1 = 1 ConfigResponse 00 00
complete 6 1 = 1 ConfigResponse 00
complete 7 2 = 1 ConfigResponse 00
element 2 epoch 257 ce 40000001 sequence 7
record 257.1 completed
record 257.2 completed
config 00001001 00000001 1 0000000A
config 00001001 00000001 2 00000001
config 00001001 00000002 1 0000001E

-- complete the first, abort the other
AssociationSetupResponse 00000000 | result 0 =
claim 40000001 00000101 = 1 ConfigResponse 00
start 1 1 1 | lfb 00001001 00000001 | SET | path 1 | full 0000000A = 1 ConfigResponse 00 00
start 2 2 2 | lfb 00001001 00000002 | SET | path 1 | full 0000001E = 1 ConfigResponse 00 00
change 3 1 | lfb 00001001 00000001 | SET | path 2 | full 00000001 = 1 ConfigResponse 00 00
prepare 4 2 = 1 ConfigResponse 00 00
prepare 5 1 = 1 ConfigResponse 00 00
complete 6 1 = 1 ConfigResponse 00
abort 7 2 = 1 ConfigResponse 00
element 2 epoch 257 ce 40000001 sequence 7
record 257.1 completed
record 257.2 aborted
config 00001001 00000001 1 0000000A
config 00001001 00000001 2 00000001

-- abort the first, complete the other
AssociationSetupResponse 00000000 | result 0 =
claim 40000001 00000101 = 1 ConfigResponse 00
start 1 1 1 | lfb 00001001 00000001 | SET | path 1 | full 0000000A = 1 ConfigResponse 00 00
start 2 2 2 | lfb 00001001 00000002 | SET | path 1 | full 0000001E = 1 ConfigResponse 00 00
change 3 1 | lfb 00001001 00000001 | SET | path 2 | full 00000001 = 1 ConfigResponse 00 00
prepare 4 2 = 1 ConfigResponse 00 00
prepare 5 1 = 1 ConfigResponse 00 00
abort 6 1 = 1 ConfigResponse 00
complete 7 2 = 1 ConfigResponse 00
element 2 epoch 257 ce 40000001 sequence 7
record 257.1 aborted
record 257.2 completed
config 00001001 00000002 1 0000001E

-- abort the first, abort the other
AssociationSetupResponse 00000000 | result 0 =
claim 40000001 00000101 = 1 ConfigResponse 00
start 1 1 1 | lfb 00001001 00000001 | SET | path 1 | full 0000000A = 1 ConfigResponse 00 00
start 2 2 2 | lfb 00001001 00000002 | SET | path 1 | full 0000001E = 1 ConfigResponse 00 00
change 3 1 | lfb 00001001 00000001 | SET | path 2 | full 00000001 = 1 ConfigResponse 00 00
prepare 4 2 = 1 ConfigResponse 00 00
prepare 5 1 = 1 ConfigResponse 00 00
abort 6 1 = 1 ConfigResponse 00
abort 7 2 = 1 ConfigResponse 00
element 2 epoch 257 ce 40000001 sequence 7
record 257.1 aborted
record 257.2 aborted

-- complete the second, complete the other
AssociationSetupResponse 00000000 | result 0 =
claim 40000001 00000101 = 1 ConfigResponse 00
start 1 1 1 | lfb 00001001 00000001 | SET | path 1 | full 0000000A = 1 ConfigResponse 00 00
start 2 2 2 | lfb 00001001 00000002 | SET | path 1 | full 0000001E = 1 ConfigResponse 00 00
change 3 1 | lfb 00001001 00000001 | SET | path 2 | full 00000001 = 1 ConfigResponse 00 00
prepare 4 2 = 1 ConfigResponse 00 00
prepare 5 1 = 1 ConfigResponse 00 00
complete 6 2 = 1 ConfigResponse 00
complete 7 1 = 1 ConfigResponse 00
element 2 epoch 257 ce 40000001 sequence 7
record 257.1 completed
record 257.2 completed
config 00001001 00000001 1 0000000A
config 00001001 00000001 2 00000001
config 00001001 00000002 1 0000001E

-- complete the second, abort the other
AssociationSetupResponse 00000000 | result 0 =
claim 40000001 00000101 = 1 ConfigResponse 00
start 1 1 1 | lfb 00001001 00000001 | SET | path 1 | full 0000000A = 1 ConfigResponse 00 00
start 2 2 2 | lfb 00001001 00000002 | SET | path 1 | full 0000001E = 1 ConfigResponse 00 00
change 3 1 | lfb 00001001 00000001 | SET | path 2 | full 00000001 = 1 ConfigResponse 00 00
prepare 4 2 = 1 ConfigResponse 00 00
prepare 5 1 = 1 ConfigResponse 00 00
complete 6 2 = 1 ConfigResponse 00
abort 7 1 = 1 ConfigResponse 00
element 2 epoch 257 ce 40000001 sequence 7
record 257.1 aborted
record 257.2 completed
config 00001001 00000002 1 0000001E

-- abort the second, complete the other
AssociationSetupResponse 00000000 | result 0 =
claim 40000001 00000101 = 1 ConfigResponse 00
start 1 1 1 | lfb 00001001 00000001 | SET | path 1 | full 0000000A = 1 ConfigResponse 00 00
start 2 2 2 | lfb 00001001 00000002 | SET | path 1 | full 0000001E = 1 ConfigResponse 00 00
change 3 1 | lfb 00001001 00000001 | SET | path 2 | full 00000001 = 1 ConfigResponse 00 00
prepare 4 2 = 1 ConfigResponse 00 00
prepare 5 1 = 1 ConfigResponse 00 00
abort 6 2 = 1 ConfigResponse 00
complete 7 1 = 1 ConfigResponse 00
element 2 epoch 257 ce 40000001 sequence 7
record 257.1 completed
record 257.2 aborted
config 00001001 00000001 1 0000000A
config 00001001 00000001 2 00000001

-- abort the second, abort the other
AssociationSetupResponse 00000000 | result 0 =
claim 40000001 00000101 = 1 ConfigResponse 00
start 1 1 1 | lfb 00001001 00000001 | SET | path 1 | full 0000000A = 1 ConfigResponse 00 00
start 2 2 2 | lfb 00001001 00000002 | SET | path 1 | full 0000001E = 1 ConfigResponse 00 00
change 3 1 | lfb 00001001 00000001 | SET | path 2 | full 00000001 = 1 ConfigResponse 00 00
prepare 4 2 = 1 ConfigResponse 00 00
prepare 5 1 = 1 ConfigResponse 00 00
abort 6 2 = 1 ConfigResponse 00
abort 7 1 = 1 ConfigResponse 00
element 2 epoch 257 ce 40000001 sequence 7
record 257.1 aborted
record 257.2 aborted";

#[test]
fn two_transactions_end_each_by_itself(rt: HostRuntime) -> Result<(), Fail> {
    assert_eq!(rt; first_wrong(rt.alloc(), PORTS, ENDS, 65_536)?, None);
    Ok(())
}

// Other transactions, plain changes, queries, reports and claims while some are held.
const BESIDE: &str = "\
-- scopes that meet do not stand together
AssociationSetupResponse 00000000 | result 0 =
claim 40000001 00000101 = 1 ConfigResponse 00
start 1 1 1 = 1 ConfigResponse 00
start 2 2 12 = 1 ConfigResponse 12
start 3 3 all = 1 ConfigResponse 12
start 4 4 2 = 1 ConfigResponse 00
start 5 5 1 = 1 ConfigResponse 12
abort 6 1 = 1 ConfigResponse 00
start 7 6 1 = 1 ConfigResponse 00
element 2 epoch 257 ce 40000001 sequence 7
record 257.1 aborted
record 257.4 started
record 257.6 started

-- what lies outside fails, and undoes its own alone
AssociationSetupResponse 00000000 | result 0 =
claim 40000001 00000101 = 1 ConfigResponse 00
start 1 1 1 | lfb 00001001 00000001 | SET | path 1 | full 0000000A = 1 ConfigResponse 00 00
start 2 2 2 | lfb 00001001 00000002 | SET | path 1 | full 0000001E = 1 ConfigResponse 00 00
change 3 2 | lfb 00001001 00000001 | SET | path 1 | full 0000000B = 1 ConfigResponse 00 10
Query 00000000 | lfb 00001001 00000001 | GET | path 1 | lfb 00001001 00000002 | GET | path 1 = 1 QueryResponse 0000000A 00000000
prepare 4 1 = 1 ConfigResponse 00 00
complete 5 1 = 1 ConfigResponse 00
element 2 epoch 257 ce 40000001 sequence 5
record 257.1 completed
record 257.2 aborted
config 00001001 00000001 1 0000000A

-- a plain change waits where it meets one that is held
AssociationSetupResponse 00000000 | result 0 =
claim 40000001 00000101 = 1 ConfigResponse 00
start 1 1 1 = 1 ConfigResponse 00
plain 2 | lfb 00001001 00000001 | SET | path 1 | full 0000000A = 1 ConfigResponse 12
plain 3 | lfb 00001001 00000002 | SET | path 1 | full 0000001E | lfb 00001001 00000001 | SET | path 1 | full 0000000A = 1 ConfigResponse 12 12
plain 4 | lfb 00001001 00000002 | SET | path 1 | full 0000001E = 1 ConfigResponse 00
abort 5 1 = 1 ConfigResponse 00
plain 6 | lfb 00001001 00000001 | SET | path 1 | full 0000000A = 1 ConfigResponse 00
element 2 epoch 257 ce 40000001 sequence 6
record 257.1 aborted
config 00001001 00000001 1 0000000A
config 00001001 00000002 1 0000001E

-- queries see what is held, and the report does not
AssociationSetupResponse 00000000 | result 0 =
claim 40000001 00000101 = 1 ConfigResponse 00
start 1 1 all | lfb 00001001 00000001 | SET | path 1 | full 0000000A = 1 ConfigResponse 00 00
prepare 2 1 = 1 ConfigResponse 00 00
Query 00000000 | lfb 00001001 00000001 | GET | path 1 | lfb 00001001 00000002 | GET | path 1 = 1 QueryResponse 0000000A 00000000
element 2 epoch 257 ce 40000001 sequence 2
record 257.1 prepared

-- a claim undoes what is started, and keeps what is prepared
AssociationSetupResponse 00000000 | result 0 =
claim 40000001 00000101 = 1 ConfigResponse 00
start 1 1 1 | lfb 00001001 00000001 | SET | path 1 | full 0000000A = 1 ConfigResponse 00 00
start 2 2 2 | lfb 00001001 00000002 | SET | path 1 | full 0000001E = 1 ConfigResponse 00 00
start 3 3 9 = 1 ConfigResponse 10
Config C0600000 40000001 00000002 0000010100000004 | lfb 0001F001 00000001 | SET | path 4 | full 00000101000000040112000C000000010000000201120010000000010000100100000003 | lfb 00001001 00000003 | SET | path 1 | full 00000003 = 1 ConfigResponse 00 00
prepare 5 2 = 1 ConfigResponse 00 00
claim 40000001 00000201 = 1 ConfigResponse 00
Query 00000000 | lfb 00001001 00000001 | GET | path 1 | lfb 00001001 00000002 | GET | path 1 = 1 QueryResponse 00000000 0000001E
Config C0700000 40000001 00000002 0000020100000001 | lfb 0001F001 00000001 | SET | path 5 | full 0000010100000002 | TRCOMP = 1 ConfigResponse 00
Config C0600000 40000001 00000002 0000020100000002 | lfb 0001F001 00000001 | SET | path 4 | full 00000101000000090112000C000000010000000201120004 = 1 ConfigResponse 10
Config C0600000 40000001 00000002 0000020100000003 | lfb 0001F001 00000001 | SET | path 4 | full 00000201000000010112000C000000010000000201120004 = 1 ConfigResponse 00
element 2 epoch 513 ce 40000001 sequence 3
record 257.1 aborted
record 257.2 completed
record 257.4 aborted
record 513.1 started
config 00001001 00000002 1 0000001E

-- what was prepared is completed once, however often that is asked
AssociationSetupResponse 00000000 | result 0 =
claim 40000001 00000101 = 1 ConfigResponse 00
start 1 1 all = 1 ConfigResponse 00
change 2 1 | lfb 00001001 00000001 | SET | path 1 | full 0000000A = 1 ConfigResponse 00 00
prepare 3 1 = 1 ConfigResponse 00 00
prepare 3 1 = 1 ConfigResponse 00 00
prepare 3 1 = 1 ConfigResponse 00 00
complete 4 1 = 1 ConfigResponse 00
complete 4 1 = 1 ConfigResponse 00
plain 5 | lfb 00001001 00000001 | SET | path 1 | full 0000000B = 1 ConfigResponse 00
complete 4 1 = 1 ConfigResponse 10
element 2 epoch 257 ce 40000001 sequence 5
record 257.1 completed
config 00001001 00000001 1 0000000B";

#[test]
fn what_is_held_stands_apart(rt: HostRuntime) -> Result<(), Fail> {
    let alloc = rt.alloc();
    for piece in [65_536, 13] {
        assert_eq!(rt; first_wrong(alloc, PORTS, BESIDE, piece)?, None);
    }
    Ok(())
}

// Operations that lie within the scope of their transaction, and outside it.
const WITHIN: &str = "\
-- within the first port
AssociationSetupResponse 00000000 | result 0 =
claim 40000001 00000101 = 1 ConfigResponse 00
start 1 1 1 | lfb 00001001 00000002 | COMMIT = 1 ConfigResponse 00 12
start 2 2 1 | lfb 00001001 00000002 | SET | path 1 | full 00000006 | path 1 | full 00000007 = 1 ConfigResponse 00 10 FF
start 3 3 1 | lfb 00001001 00000001 | SET | path 1 | full 00000008 = 1 ConfigResponse 00 00
element 2 epoch 257 ce 40000001 sequence 3
record 257.1 aborted
record 257.2 aborted
record 257.3 started

-- within the second
AssociationSetupResponse 00000000 | result 0 =
claim 40000001 00000101 = 1 ConfigResponse 00
start 1 1 2 | lfb 00001001 00000002 | COMMIT = 1 ConfigResponse 00 12
start 2 2 2 | lfb 00001001 00000002 | SET | path 1 | full 00000006 | path 1 | full 00000007 = 1 ConfigResponse 00 00 00
change 3 2 | lfb 00001001 00000001 | SET | path 1 | full 00000008 = 1 ConfigResponse 00 10
element 2 epoch 257 ce 40000001 sequence 3
record 257.1 aborted
record 257.2 aborted

-- within both
AssociationSetupResponse 00000000 | result 0 =
claim 40000001 00000101 = 1 ConfigResponse 00
start 1 1 12 | lfb 00001001 00000002 | COMMIT = 1 ConfigResponse 00 12
start 2 2 12 | lfb 00001001 00000002 | SET | path 1 | full 00000006 | path 1 | full 00000007 | lfb 00001001 00000001 | SET | path 1 | full 00000008 = 1 ConfigResponse 00 00 00 00
element 2 epoch 257 ce 40000001 sequence 2
record 257.1 aborted
record 257.2 started

-- within all
AssociationSetupResponse 00000000 | result 0 =
claim 40000001 00000101 = 1 ConfigResponse 00
start 1 1 all | lfb 00001001 00000002 | COMMIT = 1 ConfigResponse 00 12
start 2 2 all | lfb 00001001 00000002 | SET | path 1 | full 00000006 | path 1 | full 00000007 | lfb 00001001 00000001 | SET | path 1 | full 00000008 = 1 ConfigResponse 00 00 00 00
element 2 epoch 257 ce 40000001 sequence 2
record 257.1 aborted
record 257.2 started

-- what lies outside undoes its transaction, and the other one stays
AssociationSetupResponse 00000000 | result 0 =
claim 40000001 00000101 = 1 ConfigResponse 00
start 1 1 1 | lfb 00001001 00000001 | SET | path 1 | full 00000006 = 1 ConfigResponse 00 00
start 2 2 2 | lfb 00001001 00000002 | SET | path 1 | full 00000007 = 1 ConfigResponse 00 00
change 3 1 | lfb 00001001 00000001 | SET | path 1 | full 00000009 | lfb 00001001 00000002 | SET | path 1 | full 00000009 = 1 ConfigResponse 00 FF 10
Query 00000000 | lfb 00001001 00000001 | GET | path 1 | lfb 00001001 00000002 | GET | path 1 = 1 QueryResponse 00000000 00000007
prepare 4 2 = 1 ConfigResponse 00 00
complete 5 2 = 1 ConfigResponse 00
element 2 epoch 257 ce 40000001 sequence 5
record 257.1 aborted
record 257.2 completed
config 00001001 00000002 1 00000007";

#[test]
fn what_lies_outside_a_scope_is_refused(rt: HostRuntime) -> Result<(), Fail> {
    assert_eq!(rt; first_wrong(rt.alloc(), PORTS, WITHIN, 65_536)?, None);
    Ok(())
}
