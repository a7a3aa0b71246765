// Properties and events: what is registered, and what is told of it.
use crate::tables::first_wrong;
use std::alloc::Global;
use std::test::Fail;

// Ports with an event on their speed; and sensors, with an event of each kind, on numbers with and without a sign.
const SENSORS: &str = r#"
[[class]]
id = 0x1001
name = "Port"
event_base = 60
component = [
  { id = 1, name = "speed", type = "u32", max = 1000 },
  { id = 2, name = "mtu", type = "u32", max = 9000 },
  { id = 3, name = "queue", type = "u32" },
  { id = 4, name = "ports", type = "array", entries = 4, keys = [{ id = 1, fields = [1] }], entry = { type = "struct", fields = [
    { id = 1, name = "name", type = "string", length = 16 },
    { id = 2, name = "rate", type = "u32" },
    { id = 3, name = "up", type = "bool" } ] } },
  { id = 5, name = "note", type = "string", length = 40, optional = true },
  { id = 6, name = "serial", type = "u32", access = 1 } ]
event = [{ id = 1, name = "fast", when = "greater", target = [1] }]

[[class]]
id = 0x1003
name = "Sensor"
event_base = 90
component = [
  { id = 1, name = "level", type = "u32" },
  { id = 2, name = "heat", type = "i32" },
  { id = 3, name = "name", type = "string", length = 32768 },
  { id = 4, name = "rows", type = "array", entries = 8, entry = { type = "u8" } },
  { id = 5, name = "box", type = "struct", fields = [
    { id = 1, name = "flag", type = "bool" } ] },
  { id = 6, name = "secret", type = "octets", length = 9, access = 2 } ]
event = [
  { id = 1, name = "above", when = "greater", target = [1] },
  { id = 2, name = "below", when = "less", target = [1] },
  { id = 3, name = "warm", when = "greater", target = [2] },
  { id = 4, name = "cold", when = "less", target = [2] },
  { id = 5, name = "moved", when = "changed", target = [1] },
  { id = 6, name = "named", when = "changed", target = [3] },
  { id = 7, name = "came", when = "created", target = [4] },
  { id = 8, name = "went", when = "deleted", target = [4] },
  { id = 9, name = "flagged", when = "changed", target = [5, 1] } ]

[[instance]]
class = 0x1001
id = 1

[[instance]]
class = 0x1001
id = 2

[[instance]]
class = 0x1003
id = 1
"#;

// When an event is told.
const CONDITIONS: &str = "\
-- told above a threshold, and again only once the value was as far below as the hysteresis
AssociationSetupResponse 00000000 | result 0 =
Config C0400000 | lfb 00001001 00000001 | SET-PROP | path 60 1 | sparse | ilv 2 00000001 | ilv 3 00000064 | ilv 4 0000000A = 1 ConfigResponse 00
Config C0400000 | lfb 00001001 00000001 | SET | path 1 | full 00000065 = 1 ConfigResponse 00 1 EventNotification 00001001 00000001 60 1 00000065
Config C0400000 | lfb 00001001 00000001 | SET | path 1 | full 0000005F = 1 ConfigResponse 00
Config C0400000 | lfb 00001001 00000001 | SET | path 1 | full 00000065 = 1 ConfigResponse 00
Config C0400000 | lfb 00001001 00000001 | SET | path 1 | full 0000005A = 1 ConfigResponse 00
Config C0400000 | lfb 00001001 00000001 | SET | path 1 | full 00000065 = 1 ConfigResponse 00 1 EventNotification 00001001 00000001 60 1 00000065
Config C0400000 | lfb 00001001 00000001 | SET | path 1 | full 00000066 = 1 ConfigResponse 00
element 2 epoch 0 ce 40000001 sequence 0
config 00001001 00000001 1 00000066

-- one over the place to arm again is not there, the place itself is
AssociationSetupResponse 00000000 | result 0 =
Config C0400000 | lfb 00001001 00000001 | SET-PROP | path 60 1 | sparse | ilv 2 00000001 | ilv 3 00000064 | ilv 4 0000000A = 1 ConfigResponse 00
Config C0400000 | lfb 00001001 00000001 | SET | path 1 | full 00000064 = 1 ConfigResponse 00
Config C0400000 | lfb 00001001 00000001 | SET | path 1 | full 00000065 = 1 ConfigResponse 00 1 EventNotification 00001001 00000001 60 1 00000065
Config C0400000 | lfb 00001001 00000001 | SET | path 1 | full 0000005B = 1 ConfigResponse 00
Config C0400000 | lfb 00001001 00000001 | SET | path 1 | full 00000065 = 1 ConfigResponse 00
element 2 epoch 0 ce 40000001 sequence 0
config 00001001 00000001 1 00000065

-- the same below a threshold
AssociationSetupResponse 00000000 | result 0 =
Config C0400000 | lfb 00001003 00000001 | SET-PROP | path 90 2 | sparse | ilv 2 00000001 | ilv 3 00000064 | ilv 4 0000000A = 1 ConfigResponse 00 1 EventNotification 00001003 00000001 90 2 00000000
Config C0400000 | lfb 00001003 00000001 | SET | path 1 | full 0000006D = 1 ConfigResponse 00
Config C0400000 | lfb 00001003 00000001 | SET | path 1 | full 00000063 = 1 ConfigResponse 00
Config C0400000 | lfb 00001003 00000001 | SET | path 1 | full 0000006E = 1 ConfigResponse 00
Config C0400000 | lfb 00001003 00000001 | SET | path 1 | full 00000064 = 1 ConfigResponse 00
Config C0400000 | lfb 00001003 00000001 | SET | path 1 | full 00000063 = 1 ConfigResponse 00 1 EventNotification 00001003 00000001 90 2 00000063
element 2 epoch 0 ce 40000001 sequence 0
config 00001003 00000001 1 00000063

-- a condition that holds when the event is registered is told at once
AssociationSetupResponse 00000000 | result 0 =
Config C0400000 | lfb 00001001 00000001 | SET | path 1 | full 000003E8 = 1 ConfigResponse 00
Config C0400000 | lfb 00001001 00000001 | SET-PROP | path 60 1 | sparse | ilv 2 00000001 | ilv 3 000003E7 = 1 ConfigResponse 00 1 EventNotification 00001001 00000001 60 1 000003E8
Config C0400000 | lfb 00001001 00000001 | SET-PROP | path 60 1 | sparse | ilv 2 00000001 = 1 ConfigResponse 00 1 EventNotification 00001001 00000001 60 1 000003E8
Config C0400000 | lfb 00001001 00000001 | SET-PROP | path 60 1 | sparse | ilv 3 000003E8 = 1 ConfigResponse 00
element 2 epoch 0 ce 40000001 sequence 0
config 00001001 00000001 1 000003E8

-- the ends of numbers without a sign: nothing is above the greatest and below the least
AssociationSetupResponse 00000000 | result 0 =
Config C0400000 | lfb 00001003 00000001 | SET-PROP | path 90 1 | sparse | ilv 2 00000001 | ilv 3 FFFFFFFF = 1 ConfigResponse 00
Config C0400000 | lfb 00001003 00000001 | SET-PROP | path 90 2 | sparse | ilv 2 00000001 | ilv 3 00000000 = 1 ConfigResponse 00
Config C0400000 | lfb 00001003 00000001 | SET | path 1 | full FFFFFFFF = 1 ConfigResponse 00
Config C0400000 | lfb 00001003 00000001 | SET-PROP | path 90 1 | sparse | ilv 3 FFFFFFFE = 1 ConfigResponse 00 1 EventNotification 00001003 00000001 90 1 FFFFFFFF
Config C0400000 | lfb 00001003 00000001 | SET-PROP | path 90 2 | sparse | ilv 3 FFFFFFFF = 1 ConfigResponse 00
Config C0400000 | lfb 00001003 00000001 | SET | path 1 | full FFFFFFFE = 1 ConfigResponse 00 1 EventNotification 00001003 00000001 90 2 FFFFFFFE
Config C0400000 | lfb 00001003 00000001 | SET-PROP | path 90 1 | sparse | ilv 3 7FFFFFFF = 1 ConfigResponse 00 1 EventNotification 00001003 00000001 90 1 FFFFFFFE
Config C0400000 | lfb 00001003 00000001 | SET-PROP | path 90 2 | sparse | ilv 3 80000000 = 1 ConfigResponse 00
Config C0400000 | lfb 00001003 00000001 | SET | path 1 | full 7FFFFFFF = 1 ConfigResponse 00 1 EventNotification 00001003 00000001 90 2 7FFFFFFF
element 2 epoch 0 ce 40000001 sequence 0
config 00001003 00000001 1 7FFFFFFF

-- the ends of numbers with a sign: nothing is above the greatest and below the least
AssociationSetupResponse 00000000 | result 0 =
Config C0400000 | lfb 00001003 00000001 | SET-PROP | path 90 3 | sparse | ilv 2 00000001 | ilv 3 7FFFFFFF = 1 ConfigResponse 00
Config C0400000 | lfb 00001003 00000001 | SET-PROP | path 90 4 | sparse | ilv 2 00000001 | ilv 3 80000000 = 1 ConfigResponse 00
Config C0400000 | lfb 00001003 00000001 | SET | path 2 | full 80000000 = 1 ConfigResponse 00
Config C0400000 | lfb 00001003 00000001 | SET | path 2 | full 7FFFFFFF = 1 ConfigResponse 00
Config C0400000 | lfb 00001003 00000001 | SET-PROP | path 90 3 | sparse | ilv 3 FFFFFFFF = 1 ConfigResponse 00 1 EventNotification 00001003 00000001 90 3 7FFFFFFF
Config C0400000 | lfb 00001003 00000001 | SET-PROP | path 90 4 | sparse | ilv 3 FFFFFFFF = 1 ConfigResponse 00
Config C0400000 | lfb 00001003 00000001 | SET | path 2 | full FFFFFFFE = 1 ConfigResponse 00 1 EventNotification 00001003 00000001 90 4 FFFFFFFE
Config C0400000 | lfb 00001003 00000001 | SET | path 2 | full 00000000 = 1 ConfigResponse 00 1 EventNotification 00001003 00000001 90 3 00000000
Config C0400000 | lfb 00001003 00000001 | SET-PROP | path 90 3 | sparse | ilv 3 80000000 = 1 ConfigResponse 00 1 EventNotification 00001003 00000001 90 3 00000000
Config C0400000 | lfb 00001003 00000001 | SET | path 2 | full 80000000 = 1 ConfigResponse 00 1 EventNotification 00001003 00000001 90 4 80000000
Config C0400000 | lfb 00001003 00000001 | SET | path 2 | full 80000001 = 1 ConfigResponse 00 1 EventNotification 00001003 00000001 90 3 80000001
element 2 epoch 0 ce 40000001 sequence 0
config 00001003 00000001 2 80000001

-- a hysteresis past the least number: the event is told once and no more
AssociationSetupResponse 00000000 | result 0 =
Config C0400000 | lfb 00001003 00000001 | SET-PROP | path 90 1 | sparse | ilv 2 00000001 | ilv 3 00000005 | ilv 4 00000006 = 1 ConfigResponse 00
Config C0400000 | lfb 00001003 00000001 | SET | path 1 | full 00000006 = 1 ConfigResponse 00 1 EventNotification 00001003 00000001 90 1 00000006
Config C0400000 | lfb 00001003 00000001 | SET | path 1 | full 00000000 = 1 ConfigResponse 00
Config C0400000 | lfb 00001003 00000001 | SET | path 1 | full 00000006 = 1 ConfigResponse 00
element 2 epoch 0 ce 40000001 sequence 0
config 00001003 00000001 1 00000006

-- a number that changes by as much as the hysteresis, in either direction; what is seen last is what counts
AssociationSetupResponse 00000000 | result 0 =
Config C0400000 | lfb 00001003 00000001 | SET-PROP | path 90 5 | sparse | ilv 2 00000001 | ilv 4 00000003 = 1 ConfigResponse 00
Config C0400000 | lfb 00001003 00000001 | SET | path 1 | full 00000002 = 1 ConfigResponse 00
Config C0400000 | lfb 00001003 00000001 | SET | path 1 | full 00000004 = 1 ConfigResponse 00
Config C0400000 | lfb 00001003 00000001 | SET | path 1 | full 00000007 = 1 ConfigResponse 00 1 EventNotification 00001003 00000001 90 5 00000007
Config C0400000 | lfb 00001003 00000001 | SET | path 1 | full 00000004 = 1 ConfigResponse 00 1 EventNotification 00001003 00000001 90 5 00000004
Config C0400000 | lfb 00001003 00000001 | SET | path 1 | full 00000006 = 1 ConfigResponse 00
Config C0400000 | lfb 00001003 00000001 | SET | path 1 | full 00000003 = 1 ConfigResponse 00 1 EventNotification 00001003 00000001 90 5 00000003
element 2 epoch 0 ce 40000001 sequence 0
config 00001003 00000001 1 00000003

-- each change of a number without a hysteresis, of a text and of a field
AssociationSetupResponse 00000000 | result 0 =
Config C0400000 | lfb 00001003 00000001 | SET-PROP | path 90 5 | sparse | ilv 2 00000001 = 1 ConfigResponse 00
Config C0400000 | lfb 00001003 00000001 | SET-PROP | path 90 6 | sparse | ilv 2 00000001 | ilv 4 00000009 = 1 ConfigResponse 00
Config C0400000 | lfb 00001003 00000001 | SET-PROP | path 90 9 | sparse | ilv 2 00000001 = 1 ConfigResponse 00
Config C0400000 | lfb 00001003 00000001 | SET | path 1 | full 00000001 = 1 ConfigResponse 00 1 EventNotification 00001003 00000001 90 5 00000001
Config C0400000 | lfb 00001003 00000001 | SET | path 1 | full 00000001 = 1 ConfigResponse 00
Config C0400000 | lfb 00001003 00000001 | SET | path 3 | full 6162 = 1 ConfigResponse 00 1 EventNotification 00001003 00000001 90 6 6162
Config C0400000 | lfb 00001003 00000001 | SET | path 3 | full 6162 = 1 ConfigResponse 00
Config C0400000 | lfb 00001003 00000001 | SET | path 3 | full - = 1 ConfigResponse 00 1 EventNotification 00001003 00000001 90 6 -
Config C0400000 | lfb 00001003 00000001 | SET | path 5 1 | full 01 = 1 ConfigResponse 00 1 EventNotification 00001003 00000001 90 9 01
Config C0400000 | lfb 00001003 00000001 | SET | path 5 | full 00 = 1 ConfigResponse 00 1 EventNotification 00001003 00000001 90 9 00
element 2 epoch 0 ce 40000001 sequence 0
config 00001003 00000001 1 00000001

-- entries that come and that go, by rising subscript
AssociationSetupResponse 00000000 | result 0 =
Config C0400000 | lfb 00001003 00000001 | SET-PROP | path 90 7 | sparse | ilv 2 00000001 = 1 ConfigResponse 00
Config C0400000 | lfb 00001003 00000001 | SET-PROP | path 90 8 | sparse | ilv 2 00000001 = 1 ConfigResponse 00
Config C0400000 | lfb 00001003 00000001 | SET | path 4 5 | full 07 = 1 ConfigResponse 00 1 EventNotification 00001003 00000001 90 7 00000005
Config C0400000 | lfb 00001003 00000001 | SET | path 4 5 | full 08 = 1 ConfigResponse 00
Config C0400000 | lfb 00001003 00000001 | SET | path 4 2 | full 07 = 1 ConfigResponse 00 1 EventNotification 00001003 00000001 90 7 00000002
Config C0400000 | lfb 00001003 00000001 | SET | path 4 | full 000000010700000005070000000907 = 1 ConfigResponse 00 1 EventNotification 00001003 00000001 90 7 00000001 1 EventNotification 00001003 00000001 90 7 00000009 1 EventNotification 00001003 00000001 90 8 00000002
Config C0400000 | lfb 00001003 00000001 | DEL | path 4 9 = 1 ConfigResponse 00 1 EventNotification 00001003 00000001 90 8 00000009
Config C0400000 | lfb 00001003 00000001 | SET | path 4 9 | full 07 = 1 ConfigResponse 00 1 EventNotification 00001003 00000001 90 7 00000009
Config C0400000 | lfb 00001003 00000001 | SET | path 4 | full - = 1 ConfigResponse 00 1 EventNotification 00001003 00000001 90 8 00000001 1 EventNotification 00001003 00000001 90 8 00000005 1 EventNotification 00001003 00000001 90 8 00000009
element 2 epoch 0 ce 40000001 sequence 0

-- of an event that is registered again the memory begins anew: entries that are there are not new
AssociationSetupResponse 00000000 | result 0 =
Config C0400000 | lfb 00001003 00000001 | SET | path 4 3 | full 07 = 1 ConfigResponse 00
Config C0400000 | lfb 00001003 00000001 | SET-PROP | path 90 7 | sparse | ilv 2 00000001 = 1 ConfigResponse 00
Config C0400000 | lfb 00001003 00000001 | SET-PROP | path 90 8 | sparse | ilv 2 00000001 = 1 ConfigResponse 00
Config C0400000 | lfb 00001003 00000001 | DEL | path 4 3 = 1 ConfigResponse 00 1 EventNotification 00001003 00000001 90 8 00000003
Config C0400000 | lfb 00001003 00000001 | SET | path 4 3 | full 07 = 1 ConfigResponse 00 1 EventNotification 00001003 00000001 90 7 00000003
element 2 epoch 0 ce 40000001 sequence 0
config 00001003 00000001 4 0000000307

-- each third time, and from none on behind a notice
AssociationSetupResponse 00000000 | result 0 =
Config C0400000 | lfb 00001003 00000001 | SET-PROP | path 90 5 | sparse | ilv 2 00000001 | ilv 5 00000003 = 1 ConfigResponse 00
Config C0400000 | lfb 00001003 00000001 | SET | path 1 | full 00000001 = 1 ConfigResponse 00
Config C0400000 | lfb 00001003 00000001 | SET | path 1 | full 00000002 = 1 ConfigResponse 00
Config C0400000 | lfb 00001003 00000001 | SET | path 1 | full 00000003 = 1 ConfigResponse 00 1 EventNotification 00001003 00000001 90 5 00000003
Config C0400000 | lfb 00001003 00000001 | SET | path 1 | full 00000004 = 1 ConfigResponse 00
Config C0400000 | lfb 00001003 00000001 | SET | path 1 | full 00000005 = 1 ConfigResponse 00
Config C0400000 | lfb 00001003 00000001 | SET | path 1 | full 00000006 = 1 ConfigResponse 00 1 EventNotification 00001003 00000001 90 5 00000006
element 2 epoch 0 ce 40000001 sequence 0
config 00001003 00000001 1 00000006

-- of entries that come at once, each second
AssociationSetupResponse 00000000 | result 0 =
Config C0400000 | lfb 00001003 00000001 | SET-PROP | path 90 7 | sparse | ilv 2 00000001 | ilv 5 00000002 = 1 ConfigResponse 00
Config C0400000 | lfb 00001003 00000001 | SET | path 4 | full 0000000107000000020700000003070000000407000000050700000006070000000707 = 1 ConfigResponse 00 1 EventNotification 00001003 00000001 90 7 00000002 1 EventNotification 00001003 00000001 90 7 00000004 1 EventNotification 00001003 00000001 90 7 00000006
Config C0400000 | lfb 00001003 00000001 | SET | path 4 8 | full 07 = 1 ConfigResponse 00 1 EventNotification 00001003 00000001 90 7 00000008
element 2 epoch 0 ce 40000001 sequence 0
config 00001003 00000001 4 00000001070000000207000000030700000004070000000507000000060700000007070000000807

-- what was counted is forgotten at another SET-PROP, and so is that an event is not armed
AssociationSetupResponse 00000000 | result 0 =
Config C0400000 | lfb 00001003 00000001 | SET-PROP | path 90 5 | sparse | ilv 2 00000001 | ilv 5 00000002 = 1 ConfigResponse 00
Config C0400000 | lfb 00001003 00000001 | SET | path 1 | full 00000001 = 1 ConfigResponse 00
Config C0400000 | lfb 00001003 00000001 | SET-PROP | path 90 5 | sparse | ilv 4 00000000 = 1 ConfigResponse 00
Config C0400000 | lfb 00001003 00000001 | SET | path 1 | full 00000002 = 1 ConfigResponse 00
Config C0400000 | lfb 00001003 00000001 | SET | path 1 | full 00000003 = 1 ConfigResponse 00 1 EventNotification 00001003 00000001 90 5 00000003
Config C0400000 | lfb 00001003 00000001 | SET-PROP | path 90 1 | sparse | ilv 2 00000001 | ilv 3 00000002 = 1 ConfigResponse 00 1 EventNotification 00001003 00000001 90 1 00000003
Config C0400000 | lfb 00001003 00000001 | SET-PROP | path 90 1 | sparse | ilv 4 00000000 = 1 ConfigResponse 00 1 EventNotification 00001003 00000001 90 1 00000003
element 2 epoch 0 ce 40000001 sequence 0
config 00001003 00000001 1 00000003

-- by class, instance and event, whatever was registered first, and also from a copy
AssociationSetupResponse 00000000 | result 0 =
Config C0400000 | lfb 00001003 00000001 | SET-PROP | path 90 5 | sparse | ilv 2 00000001 = 1 ConfigResponse 00
Config C0400000 | lfb 00001003 00000001 | SET-PROP | path 90 1 | sparse | ilv 2 00000001 = 1 ConfigResponse 00
Config C0400000 | lfb 00001001 00000002 | SET-PROP | path 60 1 | sparse | ilv 2 00000001 = 1 ConfigResponse 00
Config C0400000 | lfb 00001001 00000001 | SET-PROP | path 60 1 | sparse | ilv 2 00000001 = 1 ConfigResponse 00
Config C0400000 | lfb 00001003 00000001 | SET | path 1 | full 00000001 | lfb 00001001 00000002 | SET | path 1 | full 00000001 | lfb 00001001 00000001 | SET | path 1 | full 00000001 = 1 ConfigResponse 00 00 00 1 EventNotification 00001001 00000001 60 1 00000001 1 EventNotification 00001001 00000002 60 1 00000001 1 EventNotification 00001003 00000001 90 1 00000001 1 EventNotification 00001003 00000001 90 5 00000001
element 2 epoch 0 ce 40000001 sequence 0
config 00001001 00000001 1 00000001
config 00001001 00000002 1 00000001
config 00001003 00000001 1 00000001

-- all but those of an instance that a transaction holds, which keep what they remember
AssociationSetupResponse 00000000 | result 0 =
claim 40000001 00000101 = 1 ConfigResponse 00
plain 1 | lfb 00001001 00000002 | SET-PROP | path 60 1 | sparse | ilv 2 00000001 = 1 ConfigResponse 00
plain 2 | lfb 00001001 00000001 | SET-PROP | path 60 1 | sparse | ilv 2 00000001 = 1 ConfigResponse 00
start 3 1 1 | lfb 00001001 00000001 | SET | path 1 | full 00000001 = 1 ConfigResponse 00 00
plain 4 | lfb 00001001 00000002 | SET | path 1 | full 00000001 = 1 ConfigResponse 00 1 EventNotification 00001001 00000002 60 1 00000001
plain 5 | lfb 00001001 00000002 | SET | path 2 | full 00000001 = 1 ConfigResponse 00
start 6 2 2 = 1 ConfigResponse 00
prepare 7 1 = 1 ConfigResponse 00 00
complete 8 1 = 1 ConfigResponse 00 1 EventNotification 00001001 00000001 60 1 00000001
element 2 epoch 257 ce 40000001 sequence 8
record 257.1 completed
record 257.2 started
config 00001001 00000001 1 00000001
config 00001001 00000002 1 00000001
config 00001001 00000002 2 00000001

-- an event that is registered no more is not told
AssociationSetupResponse 00000000 | result 0 =
Config C0400000 | lfb 00001003 00000001 | SET-PROP | path 90 5 | sparse | ilv 2 00000001 = 1 ConfigResponse 00
Query 00000000 | lfb 00001003 00000001 | GET-PROP | path 90 5 = 1 QueryResponse 2 00000001 3 00000000 4 00000000 5 00000001
Config C0400000 | lfb 00001003 00000001 | SET-PROP | path 90 5 | sparse | ilv 2 00000000 = 1 ConfigResponse 00
Query 00000000 | lfb 00001003 00000001 | GET-PROP | path 90 5 = 1 QueryResponse 2 00000000 3 00000000 4 00000000 5 00000001
Config C0400000 | lfb 00001003 00000001 | SET | path 1 | full 00000001 = 1 ConfigResponse 00
Config C0400000 | lfb 00001003 00000001 | SET-PROP | path 90 5 | sparse | ilv 2 00000001 = 1 ConfigResponse 00
Config C0400000 | lfb 00001003 00000001 | SET | path 1 | full 00000002 = 1 ConfigResponse 00 1 EventNotification 00001003 00000001 90 5 00000002
element 2 epoch 0 ce 40000001 sequence 0
config 00001003 00000001 1 00000002";

// What SET-PROP and GET-PROP answer.
const PROPERTIES: &str = "\
-- the rights of a component; of an array also its entries, its highest subscript and the least that is not used
AssociationSetupResponse 00000000 | result 0 =
Query 00000000 | lfb 00001001 00000001 | GET-PROP | path 1 = 1 QueryResponse 1 00000003
Query 00000000 | lfb 00001001 00000001 | GET-PROP | path 6 = 1 QueryResponse 1 00000001
Query 00000000 | lfb 00001003 00000001 | GET-PROP | path 6 = 1 QueryResponse 1 00000002 2 00000000 3 00000009
Query 00000000 | lfb 00001001 00000001 | GET-PROP | path 4 = 1 QueryResponse 1 00000003 2 00000000 3 00000000 4 00000000
Config C0400000 | lfb 00001001 00000001 | SET | path 4 0 | full 01120008657468300000006401 = 1 ConfigResponse 00
Config C0400000 | lfb 00001001 00000001 | SET | path 4 2 | full 01120008657468310000006401 = 1 ConfigResponse 00
Query 00000000 | lfb 00001001 00000001 | GET-PROP | path 4 = 1 QueryResponse 1 00000003 2 00000002 3 00000002 4 00000001
Query 00000000 | lfb 00001001 00000001 | GET-PROP | path 4 2 2 = 1 QueryResponse 1 00000003
Query 00000000 | lfb 00001001 00000001 | GET-PROP | path 4 2 1 = 1 QueryResponse 1 00000003 2 00000004 3 00000010
Query 00000000 | lfb 00001001 00000001 | GET-PROP | path 4 key 1 65746831 | > path 1 = 1 QueryResponse 1 00000003 2 00000004 3 00000010
Query 00000000 | lfb 00001001 00000001 | GET-PROP | path 4 2 = 1 QueryResponse 1 00000003
-- of a text also its length and the longest; an absent one has none
Query 00000000 | lfb 00001001 00000001 | GET-PROP | path 5 = 1 QueryResponse 0B
Config C0400000 | lfb 00001001 00000001 | SET | path 5 | full 6869 = 1 ConfigResponse 00
Query 00000000 | lfb 00001001 00000001 | GET-PROP | path 5 = 1 QueryResponse 1 00000003 2 00000002 3 00000028
-- those of what the element itself tells, and of what holds nothing
Query 00000000 | lfb 00000002 00000001 | GET-PROP | path 8 = 1 QueryResponse 1 00000001
Query 00000000 | lfb 00000001 00000001 | GET-PROP | path 5 = 1 QueryResponse 1 00000001 2 00000000 3 00000028
Query 00000000 | lfb 00000001 00000001 | GET-PROP | path 6 = 1 QueryResponse 1 00000001 2 00000002 3 00000028
Query 00000000 | lfb 0001F001 00000001 | GET-PROP | path 4 = 1 QueryResponse 0B
Query 00000000 | lfb 0001F001 00000001 | GET-PROP | path 3 = 1 QueryResponse 1 00000001 2 00000000 3 00000000 4 00000000
-- those of events
Query 00000000 | lfb 00001001 00000001 | GET-PROP | path 60 1 = 1 QueryResponse 2 00000000 3 00000000 4 00000000 5 00000001
Config C0400000 | lfb 00001001 00000001 | SET-PROP | path 60 1 | sparse | ilv 2 00000001 | ilv 3 FFFFFFFF | ilv 4 00000002 | ilv 5 00000003 = 1 ConfigResponse 00
Query 00000000 | lfb 00001001 00000001 | GET-PROP | path 60 1 = 1 QueryResponse 2 00000001 3 FFFFFFFF 4 00000002 5 00000003
Query 00000000 | lfb 00001001 00000002 | GET-PROP | path 60 1 = 1 QueryResponse 2 00000000 3 00000000 4 00000000 5 00000001
Query 00000000 | lfb 00000002 00000001 | GET-PROP | path 61 1 = 1 QueryResponse 2 00000000 3 00000000 4 00000000 5 00000001
-- what is not named stays, and what is registered no more has its first properties again
Config C0400000 | lfb 00001001 00000001 | SET-PROP | path 60 1 | sparse | ilv 4 00000007 = 1 ConfigResponse 00
Query 00000000 | lfb 00001001 00000001 | GET-PROP | path 60 1 = 1 QueryResponse 2 00000001 3 FFFFFFFF 4 00000007 5 00000003
Config C0400000 | lfb 00001001 00000001 | SET-PROP | path 60 1 | sparse | ilv 2 00000000 | ilv 4 00000009 = 1 ConfigResponse 00
Query 00000000 | lfb 00001001 00000001 | GET-PROP | path 60 1 = 1 QueryResponse 2 00000000 3 00000000 4 00000000 5 00000001
Config C0400000 | lfb 00001001 00000001 | SET-PROP | path 60 1 | sparse | ilv 3 00000005 = 1 ConfigResponse 00
Query 00000000 | lfb 00001001 00000001 | GET-PROP | path 60 1 = 1 QueryResponse 2 00000000 3 00000000 4 00000000 5 00000001
element 2 epoch 0 ce 40000001 sequence 0
config 00001001 00000001 4 00000000011200086574683000000064010000000201120008657468310000006401
config 00001001 00000001 5 6869

-- where there are none
AssociationSetupResponse 00000000 | result 0 =
Query 00000000 | lfb 00000009 00000009 | GET-PROP | path 1 = 1 QueryResponse 05
Query 00000000 | lfb 00001001 00000009 | GET-PROP | path 9 = 1 QueryResponse 07
Query 00000000 | lfb 00001001 00000001 | GET-PROP | path = 1 QueryResponse 08
Query 00000000 | lfb 00001001 00000001 | GET-PROP | path 1 1 = 1 QueryResponse 08
Query 00000000 | lfb 00001001 00000001 | GET-PROP | path 7 = 1 QueryResponse 09
Query 00000000 | lfb 00001001 00000001 | GET-PROP | path 4 9 = 1 QueryResponse 0B
Query 00000000 | lfb 00001001 00000001 | GET-PROP | path 60 = 1 QueryResponse 14
Query 00000000 | lfb 00001001 00000001 | GET-PROP | path 60 9 = 1 QueryResponse 14
Query 00000000 | lfb 00001001 00000001 | GET-PROP | path 60 1 1 = 1 QueryResponse 14
Query 00000000 | lfb 00001001 00000001 | GET-PROP | path 60 key 1 00 = 1 QueryResponse 14
element 2 epoch 0 ce 40000001 sequence 0

-- which refusal of a SET-PROP comes first
AssociationSetupResponse 00000000 | result 0 =
Config C0400000 | lfb 00000009 00000009 | SET-PROP | path 60 1 | sparse | ilv 1 00 = 1 ConfigResponse 05
Config C0400000 | lfb 00001001 00000009 | SET-PROP | path 60 1 | sparse | ilv 1 00 = 1 ConfigResponse 07
Config C0400000 | lfb 00001001 00000001 | SET-PROP | path | sparse | ilv 1 00 = 1 ConfigResponse 08
Config C0400000 | lfb 00001001 00000001 | SET-PROP | path key 60 00 | > path 1 | > sparse | > ilv 1 00 = 1 ConfigResponse 08
Config C0400000 | lfb 00001001 00000001 | SET-PROP | path 1 | sparse | ilv 1 00 = 1 ConfigResponse 0C
Config C0400000 | lfb 00001001 00000001 | SET-PROP | path 9 1 | sparse | ilv 1 00 = 1 ConfigResponse 0C
Config C0400000 | lfb 00001001 00000001 | SET-PROP | path 60 | sparse | ilv 1 00 = 1 ConfigResponse 14
Config C0400000 | lfb 00001001 00000001 | SET-PROP | path 60 9 | sparse | ilv 1 00 = 1 ConfigResponse 14
Config C0400000 | lfb 00001001 00000001 | SET-PROP | path 60 1 1 | sparse | ilv 1 00 = 1 ConfigResponse 14
Config C0400000 | lfb 00001001 00000001 | SET-PROP | path 60 key 1 00 | sparse | ilv 1 00 = 1 ConfigResponse 14
Config C0400000 | lfb 00001001 00000001 | SET-PROP | path 60 1 | sparse | ilv 2 00000001 | ilv 1 00000000 = 1 ConfigResponse 10
Config C0400000 | lfb 00001001 00000001 | SET-PROP | path 60 1 | sparse | ilv 6 00000000 | ilv 2 00000002 = 1 ConfigResponse 10
Config C0400000 | lfb 00001001 00000001 | SET-PROP | path 60 1 | sparse | ilv 2 00000001 | ilv 2 00000001 = 1 ConfigResponse 13
Config C0400000 | lfb 00001001 00000001 | SET-PROP | path 60 1 | sparse | ilv 2 00000001 | ilv 3 00 = 1 ConfigResponse 13
Config C0400000 | lfb 00001001 00000001 | SET-PROP | path 60 1 | sparse | ilv 4 0000000000 | ilv 5 00000000 = 1 ConfigResponse 13
Config C0400000 | lfb 00001001 00000001 | SET-PROP | path 60 1 | sparse | ilv 2 00000002 | ilv 6 00000000 = 1 ConfigResponse 0E
Config C0400000 | lfb 00001001 00000001 | SET-PROP | path 60 1 | sparse | ilv 2 00000001 | ilv 5 00000000 = 1 ConfigResponse 0E
Query 00000000 | lfb 00001001 00000001 | GET-PROP | path 60 1 = 1 QueryResponse 2 00000000 3 00000000 4 00000000 5 00000001
Config C0400000 | lfb 00001001 00000001 | SET-PROP | path 60 1 | sparse | ilv 5 FFFFFFFF | ilv 2 00000001 = 1 ConfigResponse 00
Query 00000000 | lfb 00001001 00000001 | GET-PROP | path 60 1 = 1 QueryResponse 2 00000001 3 00000000 4 00000000 5 FFFFFFFF
element 2 epoch 0 ce 40000001 sequence 0

-- a refusal leaves what was registered, and what is remembered of it
AssociationSetupResponse 00000000 | result 0 =
Config C0400000 | lfb 00001003 00000001 | SET-PROP | path 90 5 | sparse | ilv 2 00000001 | ilv 5 00000002 = 1 ConfigResponse 00
Config C0400000 | lfb 00001003 00000001 | SET | path 1 | full 00000001 = 1 ConfigResponse 00
Config C0400000 | lfb 00001003 00000001 | SET-PROP | path 90 5 | sparse | ilv 3 00000009 | ilv 4 00 = 1 ConfigResponse 13
Config C0400000 | lfb 00001003 00000001 | SET | path 1 | full 00000002 = 1 ConfigResponse 00 1 EventNotification 00001003 00000001 90 5 00000002
Query 00000000 | lfb 00001003 00000001 | GET-PROP | path 90 5 = 1 QueryResponse 2 00000001 3 00000000 4 00000000 5 00000002
element 2 epoch 0 ce 40000001 sequence 0
config 00001003 00000001 1 00000002

-- all of them or none
AssociationSetupResponse 00000000 | result 0 =
Config C0400000 | lfb 00001001 00000001 | SET-PROP | path 60 1 | sparse | ilv 2 00000001 | lfb 00001001 00000001 | SET-PROP | path 1 | sparse | ilv 2 00000001 | lfb 00001003 00000001 | SET-PROP | path 90 1 | sparse | ilv 2 00000001 = 1 ConfigResponse FF 0C FF
Query 00000000 | lfb 00001001 00000001 | GET-PROP | path 60 1 = 1 QueryResponse 2 00000000 3 00000000 4 00000000 5 00000001
Config C0400000 | lfb 00001001 00000001 | SET-PROP | path 60 1 | sparse | ilv 2 00000001 | lfb 00001003 00000001 | SET-PROP | path 90 1 | sparse | ilv 2 00000001 = 1 ConfigResponse 00 00
Query 00000000 | lfb 00001001 00000001 | GET-PROP | path 60 1 = 1 QueryResponse 2 00000001 3 00000000 4 00000000 5 00000001
Query 00000000 | lfb 00001003 00000001 | GET-PROP | path 90 1 = 1 QueryResponse 2 00000001 3 00000000 4 00000000 5 00000001
element 2 epoch 0 ce 40000001 sequence 0

-- up to the first that is refused
AssociationSetupResponse 00000000 | result 0 =
Config C0800000 | lfb 00001001 00000001 | SET-PROP | path 60 1 | sparse | ilv 2 00000001 | lfb 00001001 00000001 | SET-PROP | path 1 | sparse | ilv 2 00000001 | lfb 00001003 00000001 | SET-PROP | path 90 1 | sparse | ilv 2 00000001 = 1 ConfigResponse 00 0C FF
Query 00000000 | lfb 00001001 00000001 | GET-PROP | path 60 1 = 1 QueryResponse 2 00000001 3 00000000 4 00000000 5 00000001
Query 00000000 | lfb 00001003 00000001 | GET-PROP | path 90 1 = 1 QueryResponse 2 00000000 3 00000000 4 00000000 5 00000001
element 2 epoch 0 ce 40000001 sequence 0

-- each for itself
AssociationSetupResponse 00000000 | result 0 =
Config C0C00000 | lfb 00001001 00000001 | SET-PROP | path 60 1 | sparse | ilv 2 00000001 | lfb 00001001 00000001 | SET-PROP | path 1 | sparse | ilv 2 00000001 | lfb 00001003 00000001 | SET-PROP | path 90 1 | sparse | ilv 2 00000001 = 1 ConfigResponse 00 0C 00
Query 00000000 | lfb 00001001 00000001 | GET-PROP | path 60 1 = 1 QueryResponse 2 00000001 3 00000000 4 00000000 5 00000001
Query 00000000 | lfb 00001003 00000001 | GET-PROP | path 90 1 = 1 QueryResponse 2 00000001 3 00000000 4 00000000 5 00000001
element 2 epoch 0 ce 40000001 sequence 0

-- that the primary control element is gone is told where it is registered, by no evaluation, and by its registration alone
AssociationSetupResponse 00000000 | result 0 =
AssociationSetupResponse 00000000 40000002 00000002 | result 0 =
AssociationSetupResponse 00000000 40000003 00000002 | result 0 =
AssociationTeardown 00000000 | reason 0 =
AssociationSetupResponse 00000000 | result 0 =
Config C0400000 | lfb 00000002 00000001 | SET-PROP | path 61 1 | sparse | ilv 2 00000001 | ilv 5 00000009 = 1 ConfigResponse 00
Config C0400000 | lfb 00001001 00000001 | SET | path 1 | full 00000001 = 1 ConfigResponse 00
AssociationTeardown 00000000 | reason 0 = 1 EventNotification 00000002 00000001 61 1 40000002 1 EventNotification 00000002 00000001 61 1 40000003
AssociationSetupResponse 00000000 | result 0 =
Config C0400000 | lfb 00000002 00000001 | SET-PROP | path 61 1 | sparse | ilv 2 00000000 = 1 ConfigResponse 00
AssociationTeardown 00000000 | reason 0 =
element 2 epoch 0 ce 40000001 sequence 0
config 00001001 00000001 1 00000001";

// Whom an element tells of an event, and over which connection.
const TOLD: &str = "\
-- two control elements are associated; that the first is gone is registered, and told to the other one
10110008 40000001 00000002 00000000 00000000 00000000 00100008 00000000 =
open 2 = 2 AssociationSetup
@2 10110008 40000002 00000002 00000000 00000000 00000000 00100008 00000000 =
10030012 40000001 00000002 00000000 00000001 C0400000 10000030 00000002 00000001 00020024 01100020 00000002 0000003D 00000001 01130010 00000002 0000000C 00000001 = 10130010 00000002 40000001 00000000 00000001 00000000 10000028 00000002 00000001 0004001C 01100018 00000002 0000003D 00000001 01140008 00000000
10020008 40000001 00000002 00000000 00000000 00000000 00110008 00000000 = @2 10050010 00000002 40000002 00000000 00000000 00000000 10000028 00000002 00000001 000B001C 01100018 00000002 0000003D 00000001 01120008 40000002
-- nobody is told of another's end, and the same control element is told again once it is the first that ends
@2 10020008 40000002 00000002 00000000 00000000 00000000 00110008 00000000 =
10110008 40000001 00000002 00000000 00000000 00000000 00100008 00000000 =
@2 10110008 40000002 00000002 00000000 00000000 00000000 00100008 00000000 =
@2 10020008 40000002 00000002 00000000 00000000 00000000 00110008 00000000 =
open 3 = 3 AssociationSetup
@3 10110008 40000002 00000002 00000000 00000000 00000000 00100008 00000000 =
open 4 = 4 AssociationSetup
@4 10110008 40000003 00000002 00000000 00000000 00000000 00100008 00000000 =
10020008 40000001 00000002 00000000 00000000 00000000 00110008 00000000 = @3 10050010 00000002 40000002 00000000 00000000 00000000 10000028 00000002 00000001 000B001C 01100018 00000002 0000003D 00000001 01120008 40000002 @4 10050010 00000002 40000003 00000000 00000000 00000000 10000028 00000002 00000001 000B001C 01100018 00000002 0000003D 00000001 01120008 40000003
10020008 40000001 00000002 00000000 00000000 00000000 00110008 00000000 =
element 2 epoch 0 ce 40000001 sequence 0

-- where it is not registered, nobody is told
10110008 40000001 00000002 00000000 00000000 00000000 00100008 00000000 =
open 2 = 2 AssociationSetup
@2 10110008 40000002 00000002 00000000 00000000 00000000 00100008 00000000 =
10020008 40000001 00000002 00000000 00000000 00000000 00110008 00000000 =
element 2 epoch 0 ce 40000001 sequence 0

-- by silence: it stands before the heartbeats of the same moment
10110008 40000001 00000002 00000000 00000000 00000000 00100008 00000000 =
open 2 = 2 AssociationSetup
@2 10110008 40000002 00000002 00000000 00000000 00000000 00100008 00000000 =
10030012 40000001 00000002 00000000 00000001 C0400000 10000030 00000002 00000001 00020024 01100020 00000002 0000003D 00000001 01130010 00000002 0000000C 00000001 = 10130010 00000002 40000001 00000000 00000001 00000000 10000028 00000002 00000001 0004001C 01100018 00000002 0000003D 00000001 01140008 00000000
1003000F 40000001 00000002 00000000 00000002 C0400000 10000024 00000002 00000001 00010018 01100014 00000001 00000006 01120005 01000000 = 1013000F 00000002 40000001 00000000 00000002 00000000 10000024 00000002 00000001 00030018 01100014 00000001 00000006 01140008 00000000
moment 20000 = 100F0006 00000002 40000001 00000000 00000000 00000000 @2 100F0006 00000002 40000002 00000000 00000000 00000000
@2 100F0006 40000002 00000002 00000000 00000000 00000000 =
moment 30001 = @2 10050010 00000002 40000002 00000000 00000000 00000000 10000028 00000002 00000001 000B001C 01100018 00000002 0000003D 00000001 01120008 40000002 @2 100F0006 00000002 40000002 00000000 00000000 00000000
element 2 epoch 0 ce 40000001 sequence 0
config 00000002 00000001 6 01

-- an event is told behind the response, to the first control element alone; the second one can't register it
10110008 40000001 00000002 00000000 00000000 00000000 00100008 00000000 =
open 2 = 2 AssociationSetup
@2 10110008 40000002 00000002 00000000 00000000 00000000 00100008 00000000 =
@2 10030012 40000002 00000002 00000000 00000001 C0400000 10000030 00001001 00000001 00020024 01100020 00000002 0000003C 00000001 01130010 00000002 0000000C 00000001 = @2 10130010 00000002 40000002 00000000 00000001 00000000 10000028 00001001 00000001 0004001C 01100018 00000002 0000003C 00000001 01140008 0C000000
10030018 40000001 00000002 00000000 00000001 C0400000 10000048 00001001 00000001 0002003C 01100038 00000002 0000003C 00000001 01130028 00000002 0000000C 00000001 00000003 0000000C 00000064 00000004 0000000C 0000000A = 10130010 00000002 40000001 00000000 00000001 00000000 10000028 00001001 00000001 0004001C 01100018 00000002 0000003C 00000001 01140008 00000000
1003000F 40000001 00000002 00000000 00000002 C0400000 10000024 00001001 00000001 00010018 01100014 00000001 00000001 01120008 00000065 = 1013000F 00000002 40000001 00000000 00000002 00000000 10000024 00001001 00000001 00030018 01100014 00000001 00000001 01140008 00000000 10050010 00000002 40000001 00000000 00000000 00000000 10000028 00001001 00000001 000B001C 01100018 00000002 0000003C 00000001 01120008 00000065
1003000F 40000001 00000002 00000000 00000003 C0400000 10000024 00001001 00000001 00010018 01100014 00000001 00000001 01120008 0000005F = 1013000F 00000002 40000001 00000000 00000003 00000000 10000024 00001001 00000001 00030018 01100014 00000001 00000001 01140008 00000000
1003000F 40000001 00000002 00000000 00000004 C0400000 10000024 00001001 00000001 00010018 01100014 00000001 00000001 01120008 00000065 = 1013000F 00000002 40000001 00000000 00000004 00000000 10000024 00001001 00000001 00030018 01100014 00000001 00000001 01140008 00000000
-- without a wish for a response the notice comes alone
1003000F 40000001 00000002 00000000 00000005 00400000 10000024 00001001 00000001 00010018 01100014 00000001 00000001 01120008 0000005A =
1003000F 40000001 00000002 00000000 00000006 00400000 10000024 00001001 00000001 00010018 01100014 00000001 00000001 01120008 00000065 = 10050010 00000002 40000001 00000000 00000000 00000000 10000028 00001001 00000001 000B001C 01100018 00000002 0000003C 00000001 01120008 00000065
-- over another peer, where the control element was heard last
1003000F 40000001 00000002 00000000 00000007 00400000 10000024 00001001 00000001 00010018 01100014 00000001 00000001 01120008 0000005A =
open 5 = 5 AssociationSetup
@5 1003000F 40000001 00000002 00000000 00000008 00400000 10000024 00001001 00000001 00010018 01100014 00000001 00000001 01120008 00000066 = @5 10050010 00000002 40000001 00000000 00000000 00000000 10000028 00001001 00000001 000B001C 01100018 00000002 0000003C 00000001 01120008 00000066
-- what is not done tells nothing
@5 10030018 40000001 00000002 00000000 00000009 C0400000 10000024 00001001 00000001 00010018 01100014 00000001 00000001 01120008 0000005A 10000024 00001001 00000001 00010018 01100014 00000001 00000001 01120008 000003E9 = @5 10130018 00000002 40000001 00000000 00000009 00000000 10000024 00001001 00000001 00030018 01100014 00000001 00000001 01140008 FF000000 10000024 00001001 00000001 00030018 01100014 00000001 00000001 01140008 0E000000
@5 1003000F 40000001 00000002 00000000 0000000A C0400000 10000024 00001001 00000001 00010018 01100014 00000001 00000001 01120008 00000067 = @5 1013000F 00000002 40000001 00000000 0000000A 00000000 10000024 00001001 00000001 00030018 01100014 00000001 00000001 01140008 00000000
element 2 epoch 0 ce 40000001 sequence 0
config 00001001 00000001 1 00000067

-- a condition that holds is told when the event is registered; a SET-PROP beside another operation is not supported
10110008 40000001 00000002 00000000 00000000 00000000 00100008 00000000 =
open 2 = 2 AssociationSetup
@2 10110008 40000002 00000002 00000000 00000000 00000000 00100008 00000000 =
1003000F 40000001 00000002 00000000 00000001 C0400000 10000024 00001001 00000001 00010018 01100014 00000001 00000001 01120008 00000065 = 1013000F 00000002 40000001 00000000 00000001 00000000 10000024 00001001 00000001 00030018 01100014 00000001 00000001 01140008 00000000
1003001E 40000001 00000002 00000000 00000002 C0C00000 1000003C 00001001 00000001 00020030 0110002C 00000002 0000003C 00000001 0113001C 00000002 0000000C 00000001 00000003 0000000C 00000064 10000024 00001001 00000001 00010018 01100014 00000001 00000002 01120008 00000001 = 10130019 00000002 40000001 00000000 00000002 00000000 10000028 00001001 00000001 0004001C 01100018 00000002 0000003C 00000001 01140008 15000000 10000024 00001001 00000001 00030018 01100014 00000001 00000002 01140008 00000000
10030021 40000001 00000002 00000000 00000003 C0C00000 1000003C 00001001 00000001 00020030 0110002C 00000002 0000003C 00000001 0113001C 00000002 0000000C 00000001 00000003 0000000C 00000064 10000030 00000002 00000001 00020024 01100020 00000002 0000003D 00000001 01130010 00000002 0000000C 00000002 = 1013001A 00000002 40000001 00000000 00000003 00000000 10000028 00001001 00000001 0004001C 01100018 00000002 0000003C 00000001 01140008 00000000 10000028 00000002 00000001 0004001C 01100018 00000002 0000003D 00000001 01140008 0E000000 10050010 00000002 40000001 00000000 00000000 00000000 10000028 00001001 00000001 000B001C 01100018 00000002 0000003C 00000001 01120008 00000065
element 2 epoch 0 ce 40000001 sequence 0
config 00001001 00000001 1 00000065
config 00001001 00000001 2 00000001

-- a query of properties: of a component, of an event, of none, and of a component whose value is read beside it
10110008 40000001 00000002 00000000 00000000 00000000 00100008 00000000 =
open 2 = 2 AssociationSetup
@2 10110008 40000002 00000002 00000000 00000000 00000000 00100008 00000000 =
1004000D 40000001 00000002 00000000 00000007 00000000 1000001C 00001001 00000001 00080010 0110000C 00000001 00000001 = 10140011 00000002 40000001 00000000 00000007 00000000 1000002C 00001001 00000001 000A0020 0110001C 00000001 00000001 01130010 00000001 0000000C 00000003
10030015 40000001 00000002 00000000 00000001 C0400000 1000003C 00001001 00000002 00020030 0110002C 00000002 0000003C 00000001 0113001C 00000002 0000000C 00000001 00000003 0000000C 00000064 = 10130010 00000002 40000001 00000000 00000001 00000000 10000028 00001001 00000002 0004001C 01100018 00000002 0000003C 00000001 01140008 00000000
1004001F 40000001 00000002 00000000 00000007 00000000 10000064 00001001 00000002 00070010 0110000C 00000001 00000001 00080028 01100024 00000001 0000003C 0110000C 00000001 00000001 0110000C 00000001 00000002 00070010 0110000C 00000001 00000006 00080010 0110000C 00000001 00000006 = 10140036 00000002 40000001 00000000 00000007 00000000 100000C0 00001001 00000002 00090018 01100014 00000001 00000001 01120008 00000000 000A0064 01100060 00000001 0000003C 01100040 00000001 00000001 01130034 00000002 0000000C 00000001 00000003 0000000C 00000064 00000004 0000000C 00000000 00000005 0000000C 00000001 01100014 00000001 00000002 01140008 14000000 00090018 01100014 00000001 00000006 01120008 00000000 000A0020 0110001C 00000001 00000006 01130010 00000001 0000000C 00000001
element 2 epoch 0 ce 40000001 sequence 0";

#[test]
fn events_are_told_as_their_properties_say(rt: HostRuntime) -> Result<(), Fail> {
    let alloc = rt.alloc();
    for cases in [CONDITIONS, PROPERTIES, TOLD] {
        assert_eq!(rt; first_wrong(alloc, SENSORS, cases, 65_536)?, None);
    }
    Ok(())
}

// A text of 32,768 bytes, which is the longest value that a notice holds, is set, told and reported.
fn longest(alloc: Global) -> Result<String, Fail> {
    let digits = String::from_utf8(Vec::from_elem(alloc, b'6', 65_536)?)
        .ok()
        .ok_or("digits")?;
    let digits = digits.as_str();
    Ok(format!(in alloc;
        "AssociationSetupResponse 00000000 | result 0 =\nConfig C0400000 | lfb 00001003 00000001 | SET-PROP | path 90 6 | sparse | ilv 2 00000001 = 1 ConfigResponse 00\nConfig 00400000 | lfb 00001003 00000001 | SET | path 3 | full {digits} = 1 EventNotification 00001003 00000001 90 6 65536 digits\nelement 2 epoch 0 ce 40000001 sequence 0\nconfig 00001003 00000001 3 {digits}"
    )?)
}

#[test]
fn the_longest_value_is_told(rt: HostRuntime) -> Result<(), Fail> {
    let alloc = rt.alloc();
    let case = longest(alloc)?;
    assert_eq!(rt; first_wrong(alloc, SENSORS, case.as_str(), 65_536)?, None);
    Ok(())
}
