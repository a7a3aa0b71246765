// Operations with two causes against them, one line after the other.
// For each code that a configuration answers, what has a second cause too, which would come behind it. A configuration never answers 04, 0F, 12
// and FF.
pub(crate) const CAUSES: &str =
    "-- what the lines below are about: eth0 to eth3 fill the array of one port, the first row stands in the box
set 4097/1/4/1 01120008657468300000006401 = 00
set 4097/1/4/2 01120008657468310000006401 = 00
set 4097/1/4/3 01120008657468320000006401 = 00
set 4097/1/4/4 01120008657468330000006401 = 00
set 4098/1/3/1/1 0507 = 00
-- no class, before no instance and before no step
get 9/9/1 = 05
get 9/1 = 05
-- no instance, before no step and before no component
get 4097/9 = 07
set 4097/9/9 00 = 07
-- no step, a key in front, an ID or a key where there is none, before the value that does not read
set 4097/1 00 = 08
set 4097/1/1=00 00 = 08
set 4097/1/1/1 00 = 08
set 4097/1/1/1=00 00 = 08
-- no key with this number, before its value that does not read
get 4097/1/4/2=C3 = 08
-- the events, before no component and before the value
set 4097/1/60/9 00 = 14
-- no component or no field, before the step behind it and before the value
set 4097/1/7/1 00 = 09
set 4097/1/4/1/9 00 = 09
del 4097/1/4/1/9 = 09
-- no right to write, before the value, before a target that can't be taken, before a component that is absent and before a step that leads nowhere
set 4097/1/6 00 = 0C
del 4097/1/6 = 0C
sparse 4098/1/1 1:00 = 0C
set 4097/1/6/1 00000001 = 0C
-- no right to read, before a component that is absent
get 4098/1/2 = 15
look 4098/1/2 = 0B
-- an absent component, before the step behind it, before the value and before a target that can't be taken
set 4097/1/5/1 FF = 0B
sparse 4097/1/5 1:00 = 0B
del 4097/1/5/1 = 0B
-- no entry, by its subscript or by its key, before the step behind it and before the value
set 4097/1/4/9/9 00 = 0B
set 4097/1/4/1=6574683F/9 00 = 0B
sparse 4097/1/4/9 9:00 = 0B
del 4097/1/4/9/1 = 0B
-- a key that is no text or too long, before the step behind it
get 4097/1/4/1=C3/9 = 10
set 4097/1/4/1=6161616161616161616161616161616161/9 00 = 0E
-- a target that can't be taken, whatever stands there
del 4097/1/4/1/1 = 10
del 4098/1/3 = 10
-- a value that does not read, by the first place in it, before what is left over, before the room and before the keys
set 4097/1/4/5 011200 = 13
set 4097/1/4/5 0112000865746830000000640100 = 13
set 4097/1/4/5 01120005C30000000000006402 = 10
set 4097/1/4/5 01120008657468300000006402 = 0E
set 4097/1/1 000003E900 = 0E
set 4098/1/3 01120010000000010101000000020101020000 = 10
-- in the order of the fields that are named: one that is unknown, twice there or of a type without fields, before its value, and the values in turn
sparse 4097/1/4/1 9:00 3:02 = 13
sparse 4097/1/4/1 3:02 9:00 = 0E
sparse 4097/1/4/1 2:00000001 2:00 = 13
sparse 4097/1/1 1:FF = 13
sparse 4097/1/4 5:0112000865746830000000640100 = 13
-- no room, before the keys
set 4097/1/4/5 01120008657468300000006401 = 0D
sparse 4097/1/4 5:01120008657468300000006401 = 0D
sparse 4097/1/4 1:01120008657468310000006401 5:01120008657468340000006401 = 0D
-- a key that another entry has, by both keys or by one, which comes last
set 4098/1/3/1/2 0507 = 0A
set 4098/1/3/1/2 0508 = 0A
sparse 4098/1/3/1 2:0507 = 0A
set 4097/1/4/1 01120008657468310000006401 = 0A
sparse 4097/1/4/1 1:65746831 2:00000005 = 0A
-- none of them has changed anything
map 4097/1 = 00000000 00000000 00000000 0000000101120008657468300000006401000000020112000865746831000000640100000003011200086574683200000064010000000401120008657468330000006401 absent 00000000
map 4097/2 = 00000000 00000000 00000000 - absent 00000000
map 4098/1 = absent absent 0112000A000000010507000000";
