// Claims, what the fence of an element lets through, and what it tells of its masters and records.
use crate::tables::first_wrong;
use fc_test_kit::PORTS;
use std::test::Fail;

// Each verdict of the fence.
const CLAIMS: &str = "\
-- a claim opens an epoch that is above the one before, and is of its sender
AssociationSetupResponse 00000000 | result 0 =
AssociationSetupResponse 00000000 40000002 00000002 | result 0 =
claim 40000002 00000102 = 1 ConfigResponse 00
Config C0400000 40000002 00000002 0000010200000001 | lfb 00001001 00000001 | SET | path 1 | full 00000001 = 1 ConfigResponse 00
Config C0400000 40000002 00000002 0000010200000002 | lfb 00001001 00000001 | SET | path 1 | full 00000002 = 1 ConfigResponse 00
Config C0400000 40000002 00000002 0000010200000003 | lfb 00001001 00000001 | SET | path 1 | full 00000003 = 1 ConfigResponse 00
claim 40000001 00000101 = 1 ConfigResponse 0C
claim 40000001 00000202 = 1 ConfigResponse 0C
claim 40000002 00000102 = 1 ConfigResponse 10
Config C0400000 40000002 00000002 0000010200000005 | lfb 00001001 00000001 | SET | path 1 | full 00000005 = 1 ConfigResponse 10
Config C0400000 40000001 00000002 0000010200000004 | lfb 00001001 00000001 | SET | path 1 | full 00000005 = 1 ConfigResponse 0C
Config C0400000 40000002 00000002 0000010200000004 | lfb 00001001 00000001 | SET | path 1 | full 00000004 = 1 ConfigResponse 00
claim 40000001 00000201 = 1 ConfigResponse 00
Config C0400000 40000002 00000002 0000010200000005 | lfb 00001001 00000001 | SET | path 1 | full 00000005 = 1 ConfigResponse 0C
element 2 epoch 513 ce 40000001 sequence 0
config 00001001 00000001 1 00000004

-- up to the last epoch
AssociationSetupResponse 00000000 | result 0 =
AssociationSetupResponse 00000000 40000002 00000002 | result 0 =
claim 40000002 00000102 = 1 ConfigResponse 00
claim 40000001 FFFFFF01 = 1 ConfigResponse 00
claim 40000002 FFFFFF02 = 1 ConfigResponse 00
claim 40000002 00000102 = 1 ConfigResponse 0C
element 2 epoch 4294967042 ce 40000002 sequence 0

-- a claim has its epoch in its correlator, and the count 0; before the first one any other Config is one of its control element
AssociationSetupResponse 00000000 | result 0 =
AssociationSetupResponse 00000000 40000002 00000002 | result 0 =
Config C0400000 40000002 00000002 0000010200000000 | lfb 00001001 00000001 | SET | path 1 | full 00000001 = 1 ConfigResponse 0C
Config C0400000 40000001 00000002 0000010100000000 | lfb 0001F001 00000001 | SET | path 1 | full 00000102 = 1 ConfigResponse 0C
Config C0400000 40000001 00000002 0000010100000001 | lfb 0001F001 00000001 | SET | path 1 | full 00000101 = 1 ConfigResponse 0C
Config C0600000 40000001 00000002 0000010100000000 | lfb 0001F001 00000001 | SET | path 1 | full 00000101 = 1 ConfigResponse 15
Config C0400000 40000001 00000002 0000010100000000 | lfb 00001001 00000001 | SET | path 1 | full 00000001 = 1 ConfigResponse 00
element 2 epoch 0 ce 40000001 sequence 0
config 00001001 00000001 1 00000001

-- a claim that comes again, and the last Config, get their response once more, and are not done again
AssociationSetupResponse 00000000 | result 0 =
claim 40000001 00000101 = 1 ConfigResponse 00
claim 40000001 00000101 = 1 ConfigResponse 00
plain 1 | lfb 00001001 00000001 | SET | path 1 | full 0000000A = 1 ConfigResponse 00
plain 1 | lfb 00001001 00000001 | SET | path 1 | full 0000000B = 1 ConfigResponse 00
plain 1 | lfb 00001001 00000001 | SET | path 1 | full 0000000A | path 1 | full FFFFFFFF = 1 ConfigResponse 00
claim 40000001 00000101 = 1 ConfigResponse 10
element 2 epoch 257 ce 40000001 sequence 1
config 00001001 00000001 1 0000000A

-- a Config without a response has none either when it comes again
AssociationSetupResponse 00000000 | result 0 =
claim 40000001 00000101 = 1 ConfigResponse 00
Config 00400000 40000001 00000002 0000010100000001 | lfb 00001001 00000001 | SET | path 1 | full 0000000A =
plain 1 | lfb 00001001 00000001 | SET | path 1 | full 0000000B =
plain 2 | lfb 00001001 00000001 | SET | path 2 | full 00000001 = 1 ConfigResponse 00
element 2 epoch 257 ce 40000001 sequence 2
config 00001001 00000001 1 0000000A
config 00001001 00000001 2 00000001

-- what is stale is no sign of life; what is taken, comes again or leaves a gap is one
AssociationSetupResponse 00000000 | result 0 =
AssociationSetupResponse 00000000 40000002 00000002 | result 0 =
claim 40000001 00000101 = 1 ConfigResponse 00
moment 20000 =
Config C0400000 40000002 00000002 0000010200000001 | lfb 00001001 00000001 | SET | path 1 | full 0000000A = 1 ConfigResponse 0C
plain 2 | lfb 00001001 00000001 | SET | path 1 | full 0000000A = 1 ConfigResponse 10
moment 50000 =
Heartbeat C0000000 40000002 00000002 =
Heartbeat C0000000 = 1 Heartbeat
moment 70000 =
claim 40000001 00000101 = 1 ConfigResponse 00
moment 90000 =
plain 1 | lfb 00001001 00000001 | SET | path 1 | full 0000000A = 1 ConfigResponse 00
moment 110000 =
Heartbeat C0000000 = 1 Heartbeat
element 2 epoch 257 ce 40000001 sequence 1
config 00001001 00000001 1 0000000A

-- what stands in the way before the fence is neither counted nor kept
AssociationSetupResponse 00000000 | result 0 =
claim 40000001 00000101 = 1 ConfigResponse 00
Config C0400000 40000001 00000003 0000010100000001 | lfb 00001001 00000001 | SET | path 1 | full 0000000A = 1 ConfigResponse 04
Config C0000000 40000001 00000002 0000010100000001 | lfb 00001001 00000001 | SET | path 1 | full 0000000A = 1 ConfigResponse 12
plain 1 | lfb 00001001 00000001 | SET | path 1 | full 0000000A = 1 ConfigResponse 00
element 2 epoch 257 ce 40000001 sequence 1
config 00001001 00000001 1 0000000A";

#[test]
fn a_fence_takes_each_config_of_its_master_once(rt: HostRuntime) -> Result<(), Fail> {
    let alloc = rt.alloc();
    for piece in [65_536, 13] {
        assert_eq!(rt; first_wrong(alloc, PORTS, CLAIMS, piece)?, None);
    }
    Ok(())
}

// What can be asked of it.
const LIVE: &str = "\
-- who has claimed it, and the control elements that configure it
AssociationSetupResponse 00000000 | result 0 =
AssociationSetupResponse 00000000 40000002 00000002 | result 0 =
Query 00000000 | lfb 0001F001 00000001 | GET | path 1 | path 2 | path 3 | path 7 | lfb 00000002 00000001 | GET | path 8 | path 13 = 1 QueryResponse 00000000 00000000 - - 40000001 00000000
claim 40000001 00000101 = 1 ConfigResponse 00
Query 00000000 | lfb 0001F001 00000001 | GET | path 1 | path 2 | path 3 | path 7 | lfb 00000002 00000001 | GET | path 8 | path 13 = 1 QueryResponse 00000101 40000001 - - 40000001 40000001
claim 40000002 00000102 = 1 ConfigResponse 00
Query 00000000 | lfb 0001F001 00000001 | GET | path 1 | path 2 | path 3 | path 7 | lfb 00000002 00000001 | GET | path 8 | path 13 = 1 QueryResponse 00000102 40000002 - - 40000002 40000001
element 2 epoch 258 ce 40000002 sequence 0

-- the records, those that are held, and one by its key
AssociationSetupResponse 00000000 | result 0 =
claim 40000001 00000101 = 1 ConfigResponse 00
start 1 1 1 = 1 ConfigResponse 00
start 2 2 2 = 1 ConfigResponse 00
prepare 3 2 = 1 ConfigResponse 00 00
complete 4 2 = 1 ConfigResponse 00
Query 00000000 | lfb 0001F001 00000001 | GET | path 3 | path 7 = 1 QueryResponse 000000010000010100000001000000010112001400000001000000010000000200000002000000020000010100000002000000030112001400000001000000010000000200000002 000000010000010100000001000000010112001400000001000000010000000200000002
Query 00000000 | lfb 0001F001 00000001 | GET | path 3 key 1 0000010100000002 | path 3 key 1 0000010100000003 | path 3 1 3 | path 4 | path 5 | path 6 = 1 QueryResponse 0000010100000002000000030112001400000001000000010000000200000002 0B 00000001 15 15 09
element 2 epoch 257 ce 40000001 sequence 4
record 257.1 started
record 257.2 completed";

#[test]
fn masters_and_records_can_be_asked(rt: HostRuntime) -> Result<(), Fail> {
    assert_eq!(rt; first_wrong(rt.alloc(), PORTS, LIVE, 65_536)?, None);
    Ok(())
}
