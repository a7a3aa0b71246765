// The phases of a transaction by the state of its record, their shapes, and floors.
use crate::tables::first_wrong;
use fc_test_kit::PORTS;
use std::test::Fail;

// Each phase at each state of the record.
const PHASES: &str = "\
-- no record
AssociationSetupResponse 00000000 | result 0 =
claim 40000001 00000101 = 1 ConfigResponse 00
change 1 1 = 1 ConfigResponse 0B
prepare 2 1 = 1 ConfigResponse 0B 0B
complete 3 1 = 1 ConfigResponse 0B
abort 4 1 = 1 ConfigResponse 00
start 5 2 all = 1 ConfigResponse 00
element 2 epoch 257 ce 40000001 sequence 5
record 257.1 aborted
record 257.2 started

-- started
AssociationSetupResponse 00000000 | result 0 =
claim 40000001 00000101 = 1 ConfigResponse 00
start 1 1 all = 1 ConfigResponse 00
start 2 1 all = 1 ConfigResponse 0A
change 3 1 = 1 ConfigResponse 00
complete 4 1 = 1 ConfigResponse 12
prepare 5 1 = 1 ConfigResponse 00 00
element 2 epoch 257 ce 40000001 sequence 5
record 257.1 prepared

-- started, and aborted
AssociationSetupResponse 00000000 | result 0 =
claim 40000001 00000101 = 1 ConfigResponse 00
start 1 1 all = 1 ConfigResponse 00
abort 2 1 = 1 ConfigResponse 00
element 2 epoch 257 ce 40000001 sequence 2
record 257.1 aborted

-- prepared
AssociationSetupResponse 00000000 | result 0 =
claim 40000001 00000101 = 1 ConfigResponse 00
start 1 1 all = 1 ConfigResponse 00
prepare 2 1 = 1 ConfigResponse 00 00
start 3 1 all = 1 ConfigResponse 0A
change 4 1 = 1 ConfigResponse 12
prepare 5 1 = 1 ConfigResponse 12 12
complete 6 1 = 1 ConfigResponse 00
element 2 epoch 257 ce 40000001 sequence 6
record 257.1 completed

-- prepared, and aborted
AssociationSetupResponse 00000000 | result 0 =
claim 40000001 00000101 = 1 ConfigResponse 00
start 1 1 all = 1 ConfigResponse 00
prepare 2 1 = 1 ConfigResponse 00 00
abort 3 1 = 1 ConfigResponse 00
element 2 epoch 257 ce 40000001 sequence 3
record 257.1 aborted

-- completed
AssociationSetupResponse 00000000 | result 0 =
claim 40000001 00000101 = 1 ConfigResponse 00
start 1 1 all = 1 ConfigResponse 00
prepare 2 1 = 1 ConfigResponse 00 00
complete 3 1 = 1 ConfigResponse 00
start 4 1 all = 1 ConfigResponse 0A
change 5 1 = 1 ConfigResponse 12
prepare 6 1 = 1 ConfigResponse 12 12
complete 7 1 = 1 ConfigResponse 00
abort 8 1 = 1 ConfigResponse 12
element 2 epoch 257 ce 40000001 sequence 8
record 257.1 completed

-- aborted
AssociationSetupResponse 00000000 | result 0 =
claim 40000001 00000101 = 1 ConfigResponse 00
abort 1 1 = 1 ConfigResponse 00
start 2 1 all = 1 ConfigResponse 0A
change 3 1 = 1 ConfigResponse 12
prepare 4 1 = 1 ConfigResponse 12 12
complete 5 1 = 1 ConfigResponse 12
abort 6 1 = 1 ConfigResponse 00
element 2 epoch 257 ce 40000001 sequence 6
record 257.1 aborted

-- below the floor
AssociationSetupResponse 00000000 | result 0 =
claim 40000001 00000101 = 1 ConfigResponse 00
forget 1 2 = 1 ConfigResponse 00
start 2 1 all = 1 ConfigResponse 0A
change 3 1 = 1 ConfigResponse 0B
prepare 4 1 = 1 ConfigResponse 0B 0B
complete 5 1 = 1 ConfigResponse 0B
abort 6 1 = 1 ConfigResponse 0B
start 7 2 all = 1 ConfigResponse 00
element 2 epoch 257 ce 40000001 sequence 7
floor 257.2
record 257.2 started";

#[test]
fn each_phase_has_its_code_at_each_state(rt: HostRuntime) -> Result<(), Fail> {
    let alloc = rt.alloc();
    for piece in [65_536, 13] {
        assert_eq!(rt; first_wrong(alloc, PORTS, PHASES, piece)?, None);
    }
    Ok(())
}

// What comes along, and what is no phase.
const SHAPES: &str = "\
-- what comes along is done with an accepted phase alone
AssociationSetupResponse 00000000 | result 0 =
claim 40000001 00000101 = 1 ConfigResponse 00
change 1 1 | lfb 00001001 00000001 | SET | path 1 | full 0000000A = 1 ConfigResponse 0B FF
start 2 1 all | lfb 00001001 00000001 | SET | path 1 | full 0000000A = 1 ConfigResponse 00 00
start 3 1 all | lfb 00001001 00000001 | SET | path 1 | full 0000000B = 1 ConfigResponse 0A FF
Query 00000000 | lfb 00001001 00000001 | GET | path 1 = 1 QueryResponse 0000000A
prepare 4 1 = 1 ConfigResponse 00 00
change 5 1 | lfb 00001001 00000001 | SET | path 1 | full 0000000B = 1 ConfigResponse 12 FF
complete 6 1 = 1 ConfigResponse 00
element 2 epoch 257 ce 40000001 sequence 6
record 257.1 completed
config 00001001 00000001 1 0000000A

-- what fails with it undoes it
AssociationSetupResponse 00000000 | result 0 =
claim 40000001 00000101 = 1 ConfigResponse 00
start 1 1 all | lfb 00001001 00000001 | SET | path 1 | full 0000000A = 1 ConfigResponse 00 00
change 2 1 | lfb 00001001 00000001 | SET | path 2 | full 00000001 | path 6 | full 00000001 = 1 ConfigResponse 00 FF 0C
Query 00000000 | lfb 00001001 00000001 | GET | path 1 | path 2 = 1 QueryResponse 00000000 00000000
change 3 1 = 1 ConfigResponse 12
complete 4 1 = 1 ConfigResponse 12
start 5 2 all | lfb 00001001 00000001 | SET | path 1 | full 0000000A | path 6 | full 00000001 = 1 ConfigResponse 00 FF 0C
element 2 epoch 257 ce 40000001 sequence 5
record 257.1 aborted
record 257.2 aborted

-- only operations on the configuration come along
AssociationSetupResponse 00000000 | result 0 =
claim 40000001 00000101 = 1 ConfigResponse 00
start 1 1 all | SET-PROP | path 60 1 | sparse | ilv 2 00000001 = 1 ConfigResponse 00 15
start 2 2 all | COMMIT = 1 ConfigResponse 00 12
start 3 3 all | TRCOMP = 1 ConfigResponse 00
start 4 4 all = 1 ConfigResponse 00
prepare 5 4 | lfb 00001001 00000001 | SET | path 1 | full 0000000A = 1 ConfigResponse 10 10 10
complete 6 4 | lfb 00001001 00000001 | SET | path 1 | full 0000000A = 1 ConfigResponse 10 10
abort 7 4 | lfb 00001001 00000001 | SET | path 1 | full 0000000A = 1 ConfigResponse 10 10
element 2 epoch 257 ce 40000001 sequence 7
record 257.1 aborted
record 257.2 aborted
record 257.3 aborted
record 257.4 started

-- shapes that are no phase, and another mode
AssociationSetupResponse 00000000 | result 0 =
claim 40000001 00000101 = 1 ConfigResponse 00
Config C0600000 40000001 00000002 0000010100000001 | lfb 0001F001 00000001 | SET | path 5 | full 0000010100000001 = 1 ConfigResponse 10
Config C0600000 40000001 00000002 0000010100000002 | lfb 0001F001 00000001 | SET | path 4 | full 0000010100000001 = 1 ConfigResponse 10
Config C0680000 40000001 00000002 0000010100000003 | lfb 0001F001 00000001 | SET | path 4 | full 0000010100000001011200140000000100000001000000020000000201120004 = 1 ConfigResponse 10
Config C0600000 40000001 00000002 0000010100000004 | lfb 00001001 00000001 | SET | path 1 | full 0000000A = 1 ConfigResponse 10
Config C0700000 40000001 00000002 0000010100000005 | lfb 0001F001 00000001 | SET | path 5 | full 0000010100000001 = 1 ConfigResponse 10
Config C0A00000 40000001 00000002 0000010100000006 | lfb 0001F001 00000001 | SET | path 4 | full 0000010100000001011200140000000100000001000000020000000201120004 = 1 ConfigResponse 12
Config C0E00000 40000001 00000002 0000010100000007 | lfb 0001F001 00000001 | SET | path 4 | full 0000010100000001011200140000000100000001000000020000000201120004 = 1 ConfigResponse 12
element 2 epoch 257 ce 40000001 sequence 7

-- a start of another life, without a number, for participants that do not rise or not for this one, or over instances that are none of its own
AssociationSetupResponse 00000000 | result 0 =
claim 40000001 00000101 = 1 ConfigResponse 00
Config C0600000 40000001 00000002 0000010100000001 | lfb 0001F001 00000001 | SET | path 4 | full 0000010200000001011200140000000100000001000000020000000201120004 = 1 ConfigResponse 10
Config C0600000 40000001 00000002 0000010100000002 | lfb 0001F001 00000001 | SET | path 4 | full 0000010100000000011200140000000100000001000000020000000201120004 = 1 ConfigResponse 10
Config C0600000 40000001 00000002 0000010100000003 | lfb 0001F001 00000001 | SET | path 4 | full 00000101000000010112000401120004 = 1 ConfigResponse 10
Config C0600000 40000001 00000002 0000010100000004 | lfb 0001F001 00000001 | SET | path 4 | full 0000010100000001011200140000000100000002000000020000000101120004 = 1 ConfigResponse 10
Config C0600000 40000001 00000002 0000010100000005 | lfb 0001F001 00000001 | SET | path 4 | full 0000010100000001011200140000000100000002000000020000000201120004 = 1 ConfigResponse 10
Config C0600000 40000001 00000002 0000010100000006 | lfb 0001F001 00000001 | SET | path 4 | full 0000010100000001011200140000000100000001000000020000000301120004 = 1 ConfigResponse 10
Config C0600000 40000001 00000002 0000010100000007 | lfb 0001F001 00000001 | SET | path 4 | full 0000010100000001011200140000000100000002000000024000000001120004 = 1 ConfigResponse 10
Config C0600000 40000001 00000002 0000010100000008 | lfb 0001F001 00000001 | SET | path 4 | full 0000010100000001011200140000000100000000000000020000000201120004 = 1 ConfigResponse 10
Config C0600000 40000001 00000002 0000010100000009 | lfb 0001F001 00000001 | SET | path 4 | full 000001010000000101120014000000010000000100000002000000020112001C000000010000100100000002000000020000100100000001 = 1 ConfigResponse 10
Config C0600000 40000001 00000002 000001010000000A | lfb 0001F001 00000001 | SET | path 4 | full 000001010000000101120014000000010000000100000002000000020112001C000000010000100100000001000000020000100100000001 = 1 ConfigResponse 10
Config C0600000 40000001 00000002 000001010000000B | lfb 0001F001 00000001 | SET | path 4 | full 0000010100000001011200140000000100000001000000020000000201120010000000010000100100000009 = 1 ConfigResponse 10
Config C0600000 40000001 00000002 000001010000000C | lfb 0001F001 00000001 | SET | path 4 | full 000001010000000101120014000000010000000100000002000000020112001C000000010000100100000001000000020001F00100000001 = 1 ConfigResponse 10
Config C0600000 40000001 00000002 000001010000000D | lfb 0001F001 00000001 | SET | path 4 | full 000001010000000101120014000000010000000100000002000000020112001C000000010000000100000001000000020000100100000001 = 1 ConfigResponse 00
element 2 epoch 257 ce 40000001 sequence 13
record 257.1 started

-- subjects that are no transaction
AssociationSetupResponse 00000000 | result 0 =
claim 40000001 00000101 = 1 ConfigResponse 00
Config C0780000 40000001 00000002 0000010100000001 | lfb 0001F001 00000001 | SET | path 5 | full 0000000000000001 = 1 ConfigResponse 0B
Config C0780000 40000001 00000002 0000010100000002 | lfb 0001F001 00000001 | SET | path 5 | full 0000010100000000 = 1 ConfigResponse 0B
Config C0680000 40000001 00000002 0000010100000003 | lfb 0001F001 00000001 | SET | path 5 | full 0000010000000001 = 1 ConfigResponse 0B
Config C0780000 40000001 00000002 0000010100000004 | lfb 0001F001 00000001 | SET | path 5 | full 0000020200000007 = 1 ConfigResponse 00
element 2 epoch 257 ce 40000001 sequence 4
record 514.7 aborted";

// What comes near to a claim, a start and the other phases.
const NEAR: &str = "\
-- what comes near to a claim: another operation, another length, another class and another component
AssociationSetupResponse 00000000 | result 0 =
Config C0400000 40000001 00000002 0000020100000000 | lfb 0001F001 00000001 | SET | path 1 | full 00000201 | path 1 | full 00000202 = 1 ConfigResponse 0C FF
Config C0400000 40000001 00000002 0000020100000000 | lfb 0001F001 00000001 | SET | path 1 | full 0000020100 = 1 ConfigResponse 0C
Config C0400000 40000001 00000002 0000020100000000 | lfb 00001001 00000001 | SET | path 1 | full 00000201 = 1 ConfigResponse 00
Config C0400000 40000001 00000002 0000020100000000 | lfb 0001F001 00000001 | SET | path 2 | full 00000201 = 1 ConfigResponse 0C
element 2 epoch 0 ce 40000001 sequence 0
config 00001001 00000001 1 00000201

-- a start with operations in a select of their own and in its own one, with more behind the opening, and behind another select
AssociationSetupResponse 00000000 | result 0 =
claim 40000001 00000101 = 1 ConfigResponse 00
start 1 1 2 | lfb 00001001 00000001 | SET | path 1 | full 00000005 | lfb 00001001 00000002 | DEL | path 3 = 1 ConfigResponse 00 10 FF
start 2 2 2 | DEL | path 9 | lfb 00001001 00000001 | SET | path 1 | full 00000005 = 1 ConfigResponse 00 10 FF
Config C0600000 40000001 00000002 0000010100000003 | lfb 0001F001 00000001 | SET | path 4 | full 000001010000000301120014000000010000000100000002000000020112000400 = 1 ConfigResponse 10
Config C0600000 40000001 00000002 0000010100000004 | lfb 00001001 00000001 | SET | path 1 | full 00000005 | lfb 0001F001 00000001 | SET | path 4 | full 0000010100000004011200140000000100000001000000020000000201120004 = 1 ConfigResponse 10 10
element 2 epoch 257 ce 40000001 sequence 4
record 257.1 aborted
record 257.2 aborted

-- a change of no transaction; ends by both, by a change and by a COMMIT in another select; aborts with more behind them, and by other subjects
AssociationSetupResponse 00000000 | result 0 =
claim 40000001 00000101 = 1 ConfigResponse 00
start 1 1 all = 1 ConfigResponse 00
Config C0680000 40000001 00000002 0000010100000002 | lfb 0001F001 00000001 | SET | path 5 | full 0000000000000000 = 1 ConfigResponse 0B
Config C0700000 40000001 00000002 0000010100000003 | lfb 0001F001 00000001 | SET | path 5 | full 0000010100000001 | COMMIT | TRCOMP = 1 ConfigResponse 10 10
Config C0700000 40000001 00000002 0000010100000004 | lfb 0001F001 00000001 | SET | path 5 | full 0000010100000001 | DEL | path 3 = 1 ConfigResponse 10 10
Config C0700000 40000001 00000002 0000010100000005 | lfb 0001F001 00000001 | SET | path 5 | full 0000010100000001 | lfb 0001F001 00000001 | COMMIT = 1 ConfigResponse 10 10
Config C0780000 40000001 00000002 0000010100000006 | lfb 0001F001 00000001 | SET | path 5 | full 0000010100000001 | COMMIT = 1 ConfigResponse 10 10
Config C0780000 40000001 00000002 0000010100000007 | lfb 0001F001 00000001 | SET | path 5 key 1 00 | full 0000010100000001 = 1 ConfigResponse 10
Config C0780000 40000001 00000002 0000010100000008 | lfb 0001F001 00000001 | SET | path 5 1 | full 0000010100000001 = 1 ConfigResponse 10
Config C0780000 40000001 00000002 0000010100000009 | lfb 0001F001 00000001 | DEL | path 5 = 1 ConfigResponse 10
Config C0780000 40000001 00000002 000001010000000A | lfb 0001F001 00000001 | SET | path 5 | full 00000101000001 = 1 ConfigResponse 10
element 2 epoch 257 ce 40000001 sequence 10
record 257.1 started";

#[test]
fn what_comes_along_is_done_whole_or_undoes_all(rt: HostRuntime) -> Result<(), Fail> {
    for cases in [SHAPES, NEAR] {
        assert_eq!(rt; first_wrong(rt.alloc(), PORTS, cases, 65_536)?, None);
    }
    Ok(())
}

const FLOORS: &str = "\
-- a floor rises, is of the life, and waits for what is held below it
AssociationSetupResponse 00000000 | result 0 =
claim 40000001 00000101 = 1 ConfigResponse 00
abort 1 1 = 1 ConfigResponse 00
start 2 2 all = 1 ConfigResponse 00
forget 3 3 = 1 ConfigResponse 12
forget 4 2 = 1 ConfigResponse 00
forget 5 1 = 1 ConfigResponse 10
forget 6 0 = 1 ConfigResponse 10
Config C0400000 40000001 00000002 0000010100000007 | lfb 0001F001 00000001 | SET | path 6 | full 0000010200000003 = 1 ConfigResponse 10
abort 8 2 = 1 ConfigResponse 00
forget 9 3 = 1 ConfigResponse 00
abort A 2 = 1 ConfigResponse 0B
start B 2 all = 1 ConfigResponse 0A
abort C 3 = 1 ConfigResponse 00
element 2 epoch 257 ce 40000001 sequence 12
floor 257.3
record 257.3 aborted

-- and stands alone
AssociationSetupResponse 00000000 | result 0 =
claim 40000001 00000101 = 1 ConfigResponse 00
Config C0400000 40000001 00000002 0000010100000001 | lfb 0001F001 00000001 | SET | path 6 | full 0000010100000001 | path 6 | full 0000010100000002 = 1 ConfigResponse 09 FF
Config C0C00000 40000001 00000002 0000010100000002 | lfb 0001F001 00000001 | SET | path 6 | full 0000010100000001 | lfb 00001001 00000001 | SET | path 1 | full 0000000A = 1 ConfigResponse 09 00
Config C0C00000 40000001 00000002 0000010100000003 | lfb 0001F001 00000001 | SET | path 6 | full 00000101 = 1 ConfigResponse 09
Config C0C00000 40000001 00000002 0000010100000004 | lfb 0001F001 00000001 | SET | path 6 | full 0000010100000001 = 1 ConfigResponse 00
element 2 epoch 257 ce 40000001 sequence 4
floor 257.1
config 00001001 00000001 1 0000000A";

#[test]
fn a_floor_forgets_what_is_below_it(rt: HostRuntime) -> Result<(), Fail> {
    assert_eq!(rt; first_wrong(rt.alloc(), PORTS, FLOORS, 65_536)?, None);
    Ok(())
}
