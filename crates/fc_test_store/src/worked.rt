// What operations do to configurations, one line after the other.
// What is done to a configuration, and what it then holds: each case begins anew.
pub(crate) const WORKED: &str =
    "-- three values, of which the second is out of its range, each for itself
set 4097/1/1 00000005 = 00
set 4097/1/2 00002710 = 0E
set 4097/1/3 00000007 = 00
map 4097/1 = 00000005 00000000 00000007 - absent 00000000
map 4097/2 = 00000000 00000000 00000000 - absent 00000000

-- the same up to the first that is refused
set 4097/1/1 00000005 = 00
set 4097/1/2 00002710 = 0E
map 4097/1 = 00000005 00000000 00000000 - absent 00000000

-- the same, all of them or none
mark
set 4097/1/1 00000005 = 00
set 4097/1/2 00002710 = 0E
map 4097/1 = 00000005 00000000 00000000 - absent 00000000
back
map 4097/1 = 00000000 00000000 00000000 - absent 00000000

-- an entry is new, and is found by its key; no other has that one
set 4097/1/4/1 01120008657468300000006401 = 00
get 4097/1/4/1=65746830 = 00 01120008657468300000006401
get 4097/1/4/1=65746831 = 0B
get 4097/2/4/1=65746830 = 0B
set 4097/1/4/2 01120008657468300000006401 = 0A
map 4097/1 = 00000000 00000000 00000000 0000000101120008657468300000006401 absent 00000000

-- one field of an entry is changed, and the others stay
set 4097/1/4/1 01120008657468300000006401 = 00
sparse 4097/1/4/1 2:000000C8 = 00
get 4097/1/4/1 = 00 0112000865746830000000C801
sparse 4097/1/4/1 2:00000001 2:00000001 = 13
map 4097/1 = 00000000 00000000 00000000 000000010112000865746830000000C801 absent 00000000

-- an entry is taken, and its key is free again; what else is no entry, or is not there, is not taken
set 4097/1/4/1 01120008657468300000006401 = 00
del 4097/1/4/1 = 00
set 4097/1/4/2 01120008657468300000006401 = 00
get 4097/1/4/1=65746830/2 = 00 00000064
del 4097/1/4/9 = 0B
del 4097/1/1 = 10
del 4097/1/6 = 0C
del 4097/1/5 = 0B
set 4097/1/7 00000000 = 09
map 4097/1 = 00000000 00000000 00000000 0000000201120008657468300000006401 absent 00000000

-- a component that may be absent is put and taken
set 4097/1/5 6869 = 00
map 4097/1 = 00000000 00000000 00000000 - 6869 00000000
set 4097/1/5 - = 00
map 4097/1 = 00000000 00000000 00000000 - - 00000000
del 4097/1/5 = 00
map 4097/1 = 00000000 00000000 00000000 - absent 00000000

-- what goes back is as it was at its mark, keys too, and what is kept goes back with the mark below it
set 4097/1/4/1 01120008657468300000006401 = 00
mark
del 4097/1/4/1 = 00
mark
set 4097/1/4/2 01120008657468300000006401 = 00
keep
get 4097/1/4/1=65746830/2 = 00 00000064
set 4097/1/5 6869 = 00
back
map 4097/1 = 00000000 00000000 00000000 0000000101120008657468300000006401 absent 00000000
get 4097/1/4/1=65746830 = 00 01120008657468300000006401
set 4097/1/4/2 01120008657468300000006401 = 0A
set 4097/1/4/2 01120008657468310000006401 = 00

-- of two ports a third is refused by its first cause: a value that does not read, no room, an equal key, and no such key
set 4099/1/4/1 01120008657468300000006401 = 00
set 4099/1/4/2 01120008657468310000006401 = 00
set 4099/1/4/9 01120008 = 13
set 4099/1/4/9 01120008657468300000000901 = 0D
set 4099/1/4/2 01120008657468300000000901 = 0A
set 4099/1/4/1=65746837 01120008657468370000000901 = 0B
sparse 4099/1/4/2 1:65746830 = 0A
del 4099/1/4 = 10
get 4099/1/4/2 = 00 01120008657468310000006401
-- all of them, one by its key, and one that is not there
get 4099/1/4 = 00 00000001011200086574683000000064010000000201120008657468310000006401
get 4099/1/4/1=65746831 = 00 01120008657468310000006401
get 4099/1/4/1=65746837 = 0B
-- an entry is put, and goes back
mark
set 4099/1/4/1 01120008657468370000000901 = 00
get 4099/1/4/1 = 00 01120008657468370000000901
back
get 4099/1/4/1 = 00 01120008657468300000006401
-- a part is put where a key leads
mark
set 4099/1/4/1=65746831/2 00000009 = 00
get 4099/1/4/2 = 00 01120008657468310000000901
back
get 4099/1/4/2 = 00 01120008657468310000006401
-- a field is merged
mark
sparse 4099/1/4/1 2:00000009 = 00
get 4099/1/4/1 = 00 01120008657468300000000901
back
get 4099/1/4/1 = 00 01120008657468300000006401
-- the component is put as a whole
mark
set 4099/1/4 0000000101120008657468370000000901 = 00
get 4099/1/4/2 = 0B
back
get 4099/1/4/2 = 00 01120008657468310000006401
set 4099/1/4 0000000101120008657468370000000901 = 00
get 4099/1/4/1 = 00 01120008657468370000000901
get 4099/1/4/2 = 0B

-- an entry is removed, and comes back
set 4099/1/4/1 01120008657468300000006401 = 00
mark
del 4099/1/4/1 = 00
get 4099/1/4/1 = 0B
back
get 4099/1/4/1 = 00 01120008657468300000006401
-- a copy has what stands
mark
del 4099/1/4/1 = 00
copy
get 4099/1/4/1 = 0B

-- a settled copy has what stood at the mark
set 4099/1/4/1 01120008657468300000006401 = 00
mark
del 4099/1/4/1 = 00
settle
get 4099/1/4/1 = 00 01120008657468300000006401

-- four entries of two numbers: a value that does not read, no room, and in a part an equal key and no field; then one that is put
set 4099/1/6 000000000000000000000000000000010000000100000000000000020000000200000000000000030000000300000000 = 00
set 4099/1/6/4 00000003 = 13
set 4099/1/6/4 0000000300000000 = 0D
set 4099/1/6/2/1 00000003 = 0A
set 4099/1/6/2/3 00000003 = 09
set 4099/1/6/2 0000000200000000 = 00
get 4099/1/6/2 = 00 0000000200000000

-- ports in a struct: one by its key, by another and by a key that is not declared
set 4099/1/5/1/1 01120008657468300000006401 = 00
get 4099/1/5/1/1=65746830 = 00 01120008657468300000006401
get 4099/1/5/1/1=65746831 = 0B
get 4099/1/5/1/2=65746830 = 08
-- a third is refused by its first cause: its value, the room, and its key
set 4099/1/5/1/2 01120008657468310000006401 = 00
set 4099/1/5/1/3 01120008657468310000006402 = 0E
set 4099/1/5/1/3 01120008657468310000006401 = 0D
set 4099/1/5/1/1 01120008657468310000006401 = 0A
-- what is not named stays
mark
sparse 4099/1/5/1/1 2:000000C8 = 00
get 4099/1/5/1/1 = 00 0112000865746830000000C801
back
sparse 4099/1/5/1 1:01120008657468310000006401 = 0A
sparse 4099/1/5/1 5:01120008657468310000006401 = 0D
-- a removed entry is not found, and the other stays; a field is not removed
mark
del 4099/1/5/1/1 = 00
get 4099/1/5/1/1 = 0B
back
del 4099/1/5/1/2 = 00
get 4099/1/5/1/1 = 00 01120008657468300000006401
del 4099/1/5/1/1/1 = 10

-- a number, and rows of a name and a value, in a struct
set 4099/1/1/1 00000009 = 00
set 4099/1/1/2/7 011200056100000005 = 00
set 4099/1/1/2/8 011200056200000006 = 00
get 4099/1/1 = 00 000000090112001E00000007011200056100000005000000080112000562000000060000
set 4099/1/1/2/9 011200056300000001 = 0D
set 4099/1/1/2/8 011200056100000001 = 0A
set 4099/1/1/2/8 01120005C300000001 = 10
get 4099/1/1 = 00 000000090112001E00000007011200056100000005000000080112000562000000060000
-- fields and rows are merged
mark
sparse 4099/1/1 1:00000100 = 00
sparse 4099/1/1/2 8:011200056400000004 = 00
sparse 4099/1/1/2 8:011200056100000004 = 0A
get 4099/1/1/1 = 00 00000100
get 4099/1/1/2/8 = 00 011200056400000004
get 4099/1/1/2/7 = 00 011200056100000005
back
-- rows are removed and come back
mark
del 4099/1/1/2/7 = 00
set 4099/1/1/2/9 011200056100000001 = 00
del 4099/1/1/2 = 10
del 4099/1/1/2/7 = 0B
back
get 4099/1/1 = 00 000000090112001E00000007011200056100000005000000080112000562000000060000
-- rows are found by their names
set 4099/1/1/2/1=62/2 03 = 00
set 4099/1/1/2/1=C3/2 03 = 10
set 4099/1/1/2/1=7A/2 03 = 0B
get 4099/1/1/2/8 = 00 011200056200000003
-- nodes are looked at, with how many entries they lend, and a copy is what stands there
set 4099/1/2/4 0000000100000002 = 00
node 4099/1/1 = 0000000000000000 yes
node 4099/1/1/2 = 0000000000000002 yes
node 4099/1/2 = 0000000000000001 yes
node 4099/1/3 = 0B

-- what the classes of the element itself hold at first
get 1/1/3 = 00 -
get 1/1/7 = 00 02
get 2/1/4 = 00 00
get 2/1/5 = 00 00007530
get 2/1/7 = 00 000001F4
get 2/1/9 = 00 -
-- what the element tells is not held
get 1/1/2 = 0B
look 1/1/2 = 0B
set 1/1/2 00000001 = 0C
get 2/1/13 = 0B
look 2/1/13 = 0B
set 2/1/13 00000001 = 0C
get 126977/1/1 = 0B
look 126977/1/1 = 0B
set 126977/1/1 00000001 = 0C
get 126977/1/4 = 15
look 126977/1/4 = 0B
set 126977/1/4 00000001 = 0C
get 126977/1/5 = 15
look 126977/1/5 = 0B
set 126977/1/5 00000001 = 0C";

// A table with many entries. `fill` puts so many, by falling subscripts, each with its subscript as its value and another number as its key; `whole`
// asks whether these are what is read, as they rise.
pub(crate) const FULL: &str = "-- a key leads to its entry alone, and is free once that is gone
fill 4099/1/2 1024 = 00
whole 4099/1/2 1024 = yes
get 4099/1/2/1=0000555C = 00 0000555C00000009
get 4099/1/2/1=00000800 = 0B
set 4099/1/2/5 0000555C00000000 = 0A
del 4099/1/2/9 = 00
get 4099/1/2/1=0000555C = 0B
whole 4099/1/2 1024 = no
set 4099/1/2/5 0000555C00000005 = 00
get 4099/1/2/1=0000555C = 00 0000555C00000005

-- a full table is put and read, and takes no entry more
fill 4099/1/2 65537 = 0E
fill 4099/1/2 65536 = 00
whole 4099/1/2 65536 = yes
set 4099/1/2/65536 0000000100000001 = 0D
sparse 4099/1/2 65536:0000000100000001 = 0D";

pub(crate) const MERGED: &str = "-- a full table is merged, and goes back
fill 4099/1/2 65536 = 00
mark
sparse 4099/1/2 5:0001000500000009 = 00
sparse 4099/1/2 6:0001000500000009 = 0A
del 4099/1/2/7 = 00
get 4099/1/2/5 = 00 0001000500000009
back
whole 4099/1/2 65536 = yes";

pub(crate) const COPIED: &str =
    "-- the copy of a full table has what stands: its last entry too, and no room for one more
fill 4099/1/2 65536 = 00
mark
set 4099/1/2/5/2 00000009 = 00
copy
get 4099/1/2/5 = 00 0000555000000009
get 4099/1/2/65535 = 00 0000AAAA0000FFFF
set 4099/1/2/65536 0000000000000000 = 0D
-- its settled copy has what stood at the mark
set 4099/1/2/5/2 00000005 = 00
mark
set 4099/1/2/5/2 00000009 = 00
settle
whole 4099/1/2 65536 = yes
-- one entry in place of another, one merged and one removed
set 4099/1/2/9/2 00000008 = 00
sparse 4099/1/2/65535 2:00000007 = 00
del 4099/1/2/5 = 00
get 4099/1/2/1=00005551/2 = 00 00000004
get 4099/1/2/1=0000555C/2 = 00 00000008
get 4099/1/2/1=0000AAAA/2 = 00 00000007
get 4099/1/2/1=00005550/2 = 0B";

// As many instances as a library may have, of which 4,092 are of the class of one truth value; in front of them stand those of the element's own
// classes. `each` puts bytes in each of them, and `held` counts those that hold bytes.
pub(crate) const TRUTHS: u32 = 4_092;

pub(crate) const ALL: &str = "-- all go back at once
mark
each 4100/4092/1 01 = 00000FFC
held 4100/4092/1 01 = 00000FFC
back
held 4100/4092/1 01 = 00000000
-- half of them are as they were at the mark in a settled copy, and all keep what they hold where the mark ends
mark 4100/2048
each 4100/4092/1 01 = 00000FFC
settle
held 4100/4092/1 01 = 000007FC

-- the same, of the configuration itself
mark 4100/2048
each 4100/4092/1 01 = 00000FFC
keep
held 4100/4092/1 01 = 00000FFC";

// Changes that are done, or want memory and leave all as it was. With ample memory they are done; tried with each allocation refused in turn they leave
// the configuration unchanged.
pub(crate) const KEPT: &str = "-- three entries
set 4099/1/1/1 00000009 = 00
set 4099/1/2/1 0000000100000001 = 00
set 4099/1/2/2 0000000200000002 = 00
set 4099/1/2/3 0000000300000003 = 00
kept set 4099/1/2/2 0000000900000009 = yes
kept set 4099/1/2/9 0000000900000009 = yes
kept sparse 4099/1/2/2 2:00000009 = yes
kept del 4099/1/2/2 = yes";
