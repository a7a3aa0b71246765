// Configs, their responses, and what stands in the configuration after them.
use crate::tables::first_wrong;
use fc_test_kit::PORTS;
use std::test::Fail;

// The second value is out of its range: in each mode, and in none.
const MODES: &str = "\
-- all or none
AssociationSetupResponse 00000000 | result 0 =
Config C0400000 | lfb 00001001 00000001 | SET | path 1 | full 00000005 | path 2 | full 00002710 | path 3 | full 00000007 = 1 ConfigResponse FF 0E FF
Query 00000000 | lfb 00001001 00000001 | GET | path 1 | path 2 | path 3 = 1 QueryResponse 00000000 00000000 00000000
element 2 epoch 0 ce 40000001 sequence 0

-- until one is refused
AssociationSetupResponse 00000000 | result 0 =
Config C0800000 | lfb 00001001 00000001 | SET | path 1 | full 00000005 | path 2 | full 00002710 | path 3 | full 00000007 = 1 ConfigResponse 00 0E FF
Query 00000000 | lfb 00001001 00000001 | GET | path 1 | path 2 | path 3 = 1 QueryResponse 00000005 00000000 00000000
element 2 epoch 0 ce 40000001 sequence 0
config 00001001 00000001 1 00000005

-- each for itself
AssociationSetupResponse 00000000 | result 0 =
Config C0C00000 | lfb 00001001 00000001 | SET | path 1 | full 00000005 | path 2 | full 00002710 | path 3 | full 00000007 = 1 ConfigResponse 00 0E 00
Query 00000000 | lfb 00001001 00000001 | GET | path 1 | path 2 | path 3 = 1 QueryResponse 00000005 00000000 00000007
element 2 epoch 0 ce 40000001 sequence 0
config 00001001 00000001 1 00000005
config 00001001 00000001 3 00000007

-- in none
AssociationSetupResponse 00000000 | result 0 =
Config C0000000 | lfb 00001001 00000001 | SET | path 1 | full 00000005 | path 2 | full 00002710 | path 3 | full 00000007 = 1 ConfigResponse 12 12 12
element 2 epoch 0 ce 40000001 sequence 0";

// Operations of every kind in one Config, and those that no mode takes.
const KINDS: &str = "\
-- each operation has its own code: of a number, of a class and an instance that are not there, of a path that begins with a key, of an event, of
-- properties and of the ends of a transaction, the second of which is not told
AssociationSetupResponse 00000000 | result 0 =
Config C0C00000 | lfb 00001001 00000001 | SET | path 1 | full 00000005 | lfb 00001003 00000001 | DEL | path 1 | lfb 00001001 00000009 | DEL | path 1 | lfb 00001001 00000002 | SET | path key 1 65746830 | full 00000001 | path 60 1 | full 00000001 | SET-PROP | path 60 1 | sparse | ilv 2 00000001 | path 60 1 | sparse | ilv 3 00000001 | COMMIT | TRCOMP | SET | path 3 | > path | > full 00000007 = 1 ConfigResponse 00 05 07 08 14 15 15 12 00
element 2 epoch 0 ce 40000001 sequence 0
config 00001001 00000001 1 00000005
config 00001001 00000002 3 00000007

-- what follows a failure is not done
AssociationSetupResponse 00000000 | result 0 =
Config C0800000 | lfb 00001001 00000001 | SET | path 1 | full 00000005 | lfb 00001003 00000001 | DEL | path 1 | lfb 00001001 00000009 | DEL | path 1 | lfb 00001001 00000002 | SET | path key 1 65746830 | full 00000001 | path 60 1 | full 00000001 | SET-PROP | path 60 1 | sparse | ilv 2 00000001 | path 60 1 | sparse | ilv 3 00000001 | COMMIT | TRCOMP | SET | path 3 | > path | > full 00000007 = 1 ConfigResponse 00 05 FF FF FF FF FF FF FF
element 2 epoch 0 ce 40000001 sequence 0
config 00001001 00000001 1 00000005

-- one failure undoes all
AssociationSetupResponse 00000000 | result 0 =
Config C0400000 | lfb 00001001 00000001 | SET | path 1 | full 00000005 | lfb 00001003 00000001 | DEL | path 1 | lfb 00001001 00000009 | DEL | path 1 | lfb 00001001 00000002 | SET | path key 1 65746830 | full 00000001 | path 60 1 | full 00000001 | SET-PROP | path 60 1 | sparse | ilv 2 00000001 | path 60 1 | sparse | ilv 3 00000001 | COMMIT | TRCOMP | SET | path 3 | > path | > full 00000007 = 1 ConfigResponse FF 05 FF FF FF FF FF FF FF
element 2 epoch 0 ce 40000001 sequence 0

-- no mode takes properties beside another operation, or ends
AssociationSetupResponse 00000000 | result 0 =
Config C0400000 | lfb 00001001 00000001 | SET-PROP | path 60 1 | sparse | ilv 2 00000001 | SET | path 1 | full 00000006 = 1 ConfigResponse 15 FF
Config C0400000 | lfb 00001001 00000001 | COMMIT | SET | path 2 | full 00000007 = 1 ConfigResponse 12 FF
Config C0400000 | lfb 00001001 00000001 | TRCOMP | SET | path 3 | full 00000008 = 1 ConfigResponse FF
Query 00000000 | lfb 00001001 00000001 | GET | path 1 | path 2 | path 3 = 1 QueryResponse 00000000 00000000 00000000
Config C0800000 | lfb 00001001 00000001 | SET-PROP | path 60 1 | sparse | ilv 2 00000001 | SET | path 1 | full 00000006 = 1 ConfigResponse 15 FF
Config C0800000 | lfb 00001001 00000001 | COMMIT | SET | path 2 | full 00000007 = 1 ConfigResponse 12 FF
Config C0800000 | lfb 00001001 00000001 | TRCOMP | SET | path 3 | full 00000008 = 1 ConfigResponse FF
Query 00000000 | lfb 00001001 00000001 | GET | path 1 | path 2 | path 3 = 1 QueryResponse 00000000 00000000 00000000
Config C0C00000 | lfb 00001001 00000001 | SET-PROP | path 60 1 | sparse | ilv 2 00000001 | SET | path 1 | full 00000006 = 1 ConfigResponse 15 00
Config C0C00000 | lfb 00001001 00000001 | COMMIT | SET | path 2 | full 00000007 = 1 ConfigResponse 12 00
Config C0C00000 | lfb 00001001 00000001 | TRCOMP | SET | path 3 | full 00000008 = 1 ConfigResponse 00
Query 00000000 | lfb 00001001 00000001 | GET | path 1 | path 2 | path 3 = 1 QueryResponse 00000006 00000007 00000008
element 2 epoch 0 ce 40000001 sequence 0
config 00001001 00000001 1 00000006
config 00001001 00000001 2 00000007
config 00001001 00000001 3 00000008";

#[test]
fn operations_run_in_three_modes(rt: HostRuntime) -> Result<(), Fail> {
    let alloc = rt.alloc();
    for piece in [65_536, 13, 1] {
        assert_eq!(rt; first_wrong(alloc, PORTS, MODES, piece)?, None);
        assert_eq!(rt; first_wrong(alloc, PORTS, KINDS, piece)?, None);
    }
    Ok(())
}

// An entry is new, and is found by its key; one field of it changes; it is taken, and its key is free again.
const ENTRIES: &str = "\
-- no other entry has its key
AssociationSetupResponse 00000000 | result 0 =
Config C0400000 | lfb 00001001 00000001 | SET | path 4 1 | full 01120008657468300000006401 = 1 ConfigResponse 00
Query 00000000 | lfb 00001001 00000001 | GET | path 4 key 1 65746830 = 1 QueryResponse 01120008657468300000006401
Query 00000000 | lfb 00001001 00000001 | GET | path 4 key 1 65746831 = 1 QueryResponse 0B
Config C0400000 | lfb 00001001 00000001 | SET | path 4 2 | full 01120008657468300000006401 = 1 ConfigResponse 0A
element 2 epoch 0 ce 40000001 sequence 0
config 00001001 00000001 4 0000000101120008657468300000006401

-- its other fields stay
AssociationSetupResponse 00000000 | result 0 =
Config C0400000 | lfb 00001001 00000001 | SET | path 4 1 | full 01120008657468300000006401 = 1 ConfigResponse 00
Config C0400000 | lfb 00001001 00000001 | SET | path 4 1 | sparse | ilv 2 000000C8 = 1 ConfigResponse 00
Query 00000000 | lfb 00001001 00000001 | GET | path 4 1 = 1 QueryResponse 0112000865746830000000C801
Config C0400000 | lfb 00001001 00000001 | SET | path 4 1 | sparse | ilv 2 000000C8 | ilv 2 000000C8 = 1 ConfigResponse 13
element 2 epoch 0 ce 40000001 sequence 0
config 00001001 00000001 4 000000010112000865746830000000C801

-- what is no entry, is not there or may not be absent is not taken
AssociationSetupResponse 00000000 | result 0 =
Config C0400000 | lfb 00001001 00000001 | SET | path 4 1 | full 01120008657468300000006401 = 1 ConfigResponse 00
Config C0400000 | lfb 00001001 00000001 | DEL | path 4 1 = 1 ConfigResponse 00
Config C0400000 | lfb 00001001 00000001 | SET | path 4 2 | full 01120008657468300000006401 = 1 ConfigResponse 00
Config C0C00000 | lfb 00001001 00000001 | DEL | path 4 9 | path 1 | path 6 | path 5 = 1 ConfigResponse 0B 10 0C 0B
Config C0400000 | lfb 00001001 00000001 | SET | path 7 | full 00000000 = 1 ConfigResponse 09
element 2 epoch 0 ce 40000001 sequence 0
config 00001001 00000001 4 0000000201120008657468300000006401

-- an entry goes and comes back at another place, and each refusal has its code
AssociationSetupResponse 00000000 | result 0 =
Config C0400000 | lfb 00001001 00000001 | SET | path 4 1 | full 01120008657468300000006401 = 1 ConfigResponse 00
Config C0400000 | lfb 00001001 00000001 | DEL | path 4 1 | SET | path 4 2 | full 01120008657468300000006401 = 1 ConfigResponse 00 00
Query 00000000 | lfb 00001001 00000001 | GET | path 4 1 = 1 QueryResponse 0B
Config C0C00000 | lfb 00001001 00000001 | DEL | path 4 9 | path 1 | path 6 | path 5 | SET | path 7 | full 00000001 = 1 ConfigResponse 0B 10 0C 0B 09
element 2 epoch 0 ce 40000001 sequence 0
config 00001001 00000001 4 0000000201120008657468300000006401";

#[test]
fn entries_come_and_go_with_their_keys(rt: HostRuntime) -> Result<(), Fail> {
    let alloc = rt.alloc();
    for piece in [65_536, 13, 1] {
        assert_eq!(rt; first_wrong(alloc, PORTS, ENTRIES, piece)?, None);
    }
    Ok(())
}

// Each code, but for those of queries alone.
const CODES: &str = "\
AssociationSetupResponse 00000000 | result 0 =
AssociationSetupResponse 00000000 40000002 00000002 | result 0 =
Config C0400000 | lfb 00001001 00000001 | SET | path 1 | full 00000005 = 1 ConfigResponse 00
Config C0400000 40000001 00000003 | lfb 00001001 00000001 | SET | path 1 | full 00000006 = 1 ConfigResponse 04
Config C0400000 | lfb 00000009 00000001 | SET | path 1 | full 00000006 = 1 ConfigResponse 05
Config C0400000 | lfb 00001001 00000009 | SET | path 1 | full 00000006 = 1 ConfigResponse 07
Config C0400000 | lfb 00001001 00000001 | SET | path 1 1 | full 00000006 = 1 ConfigResponse 08
Config C0400000 | lfb 00001001 00000001 | SET | path 7 | full 00000006 = 1 ConfigResponse 09
Config C0400000 | lfb 00001001 00000001 | SET | path 4 1 | full 01120008657468300000006401 | path 4 2 | full 01120008657468300000006401 = 1 ConfigResponse FF 0A
Config C0400000 | lfb 00001001 00000001 | DEL | path 4 1 = 1 ConfigResponse 0B
Config C0400000 | lfb 00001001 00000001 | SET | path 6 | full 00000006 = 1 ConfigResponse 0C
Config C0400000 40000002 00000002 | lfb 00001001 00000001 | SET | path 1 | full 00000006 = 1 ConfigResponse 0C
Config C0C00000 | lfb 0001F001 00000001 | SET | path 1 | full 00000101 | path 9 | full 00 = 1 ConfigResponse 0C 09
Config C0800000 | lfb 00001001 00000002 | SET | path 4 1 | full 011200040000000000 | path 4 2 | full 01120005610000000000000000 = 1 ConfigResponse 00 00
Config C0800000 | lfb 00001001 00000002 | SET | path 4 3 | full 01120005620000000000000000 | path 4 4 | full 01120005630000000000000000 | path 4 5 | full 01120005640000000000000000 = 1 ConfigResponse 00 00 0D
Config C0400000 | lfb 00001001 00000001 | SET | path 1 | full 000003E9 = 1 ConfigResponse 0E
Config C0400000 | lfb 00001001 00000001 | DEL | path 1 = 1 ConfigResponse 10
Config C0000000 | lfb 00001001 00000001 | SET | path 1 | full 00000006 = 1 ConfigResponse 12
Config C0400000 | lfb 00001001 00000001 | COMMIT = 1 ConfigResponse 12
Config C0400000 | lfb 00001001 00000001 | SET | path 1 | full 0000 = 1 ConfigResponse 13
Config C0400000 | lfb 00001001 00000001 | SET | path 60 1 | full 00000006 = 1 ConfigResponse 14
Config C0600000 | lfb 00001001 00000001 | SET | path 1 | full 00000006 = 1 ConfigResponse 15
Config C0400000 | lfb 00001001 00000001 | TRCOMP =
Query 00000000 | lfb 00001001 00000001 | GET | path 1 | path 5 | path 60 1 | path 9 | path 1 1 | lfb 00000009 00000001 | GET | path 1 | lfb 00001001 00000009 | GET | path 1 | lfb 00001002 00000001 | GET | path 3 = 1 QueryResponse 00000005 0B 14 09 08 05 07 15
Query 00000000 | lfb 00001002 00000001 | GET | path 1 | path 1 | path 2 = 1 QueryResponse 65536 digits 0F 0000
Query 00000000 40000001 00000003 | lfb 00001001 00000001 | GET | path 1 = 1 QueryResponse 04
element 2 epoch 0 ce 40000001 sequence 0
config 00001001 00000001 1 00000005
config 00001001 00000002 4 00000001011200040000000000000000020112000561000000000000000000000003011200056200000000000000000000000401120005630000000000000000";

#[test]
fn each_code_has_its_cause(rt: HostRuntime) -> Result<(), Fail> {
    assert_eq!(rt; first_wrong(rt.alloc(), PORTS, CODES, 65_536)?, None);
    Ok(())
}

// Each acknowledgement that may be asked for, where all is done and where something is refused.
const ACKNOWLEDGEMENTS: &str = "\
AssociationSetupResponse 00000000 | result 0 =
Config 00400000 | lfb 00001001 00000001 | SET | path 1 | full 00000001 | path 3 | full 00000001 =
Config 00400000 | lfb 00001001 00000001 | SET | path 1 | full FFFFFFFF | path 3 | full 00000002 =
Config 40400000 | lfb 00001001 00000001 | SET | path 1 | full 00000003 | path 3 | full 00000003 = 1 ConfigResponse 00 00
Config 40400000 | lfb 00001001 00000001 | SET | path 1 | full FFFFFFFF | path 3 | full 00000004 =
Config 80400000 | lfb 00001001 00000001 | SET | path 1 | full 00000005 | path 3 | full 00000005 =
Config 80400000 | lfb 00001001 00000001 | SET | path 1 | full FFFFFFFF | path 3 | full 00000006 = 1 ConfigResponse 0E FF
Config C0400000 | lfb 00001001 00000001 | SET | path 1 | full 00000007 | path 3 | full 00000007 = 1 ConfigResponse 00 00
Config C0400000 | lfb 00001001 00000001 | SET | path 1 | full FFFFFFFF | path 3 | full 00000008 = 1 ConfigResponse 0E FF
element 2 epoch 0 ce 40000001 sequence 0
config 00001001 00000001 1 00000007
config 00001001 00000001 3 00000007";

#[test]
fn the_acknowledgement_says_which_responses_are_sent(rt: HostRuntime) -> Result<(), Fail> {
    assert_eq!(rt;
        first_wrong(rt.alloc(), PORTS, ACKNOWLEDGEMENTS, 65_536)?,
        None
    );
    Ok(())
}

// What the report tells: by class, instance and component what is not as it opened, and not what is so again.
const REPORTED: &str = "\
AssociationSetupResponse 00000000 | result 0 =
Config C0400000 | lfb 00001002 00000001 | SET | path 3 | full 00000009 | path 2 | full 0102 | lfb 00001001 00000003 | SET | path 5 | full - | path 1 | full 000003E8 | lfb 00001001 00000002 | SET | path 5 | full 6869 | path 1 | full 00000001 | lfb 00000001 00000001 | SET | path 3 | full 6665 | path 7 | full 00 = 1 ConfigResponse 00 00 00 00 00 00 00 00
Config C0400000 | lfb 00001001 00000002 | DEL | path 5 | SET | path 1 | full 00000000 = 1 ConfigResponse 00 00
element 2 epoch 0 ce 40000001 sequence 0
config 00000001 00000001 3 6665
config 00000001 00000001 7 00
config 00001001 00000003 1 000003E8
config 00001001 00000003 5 -
config 00001002 00000001 2 0102
config 00001002 00000001 3 00000009";

#[test]
fn the_report_tells_what_is_not_as_it_opened(rt: HostRuntime) -> Result<(), Fail> {
    assert_eq!(rt; first_wrong(rt.alloc(), PORTS, REPORTED, 65_536)?, None);
    Ok(())
}
