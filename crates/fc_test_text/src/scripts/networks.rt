// Scripts of small networks: a library of ports, one or two elements and controllers, transactions, and what happens.
use crate::scripts::telling::told;
use std::alloc::Global;
use std::test::Fail;

// A library of ports with three of them, and elements 1 and 2 of controller 40000001.
const NETWORK: &str = r#"
element = [{ id = 1, ce = 0x40000001 }, { id = 2, ce = 0x40000001 }]

[[class]]
id = 0x1001
name = "Port"
event_base = 60
component = [
  { id = 1, name = "speed", type = "u32", max = 1000 },
  { id = 2, name = "mtu", type = "u32", max = 9000 },
  { id = 3, name = "queue", type = "u32" },
  { id = 4, name = "ports", type = "array", entries = 4, keys = [{ id = 1, fields = [1] }], entry = { type = "struct", fields = [
    { id = 1, name = "name", type = "string", length = 16 },
    { id = 2, name = "rate", type = "u32" },
    { id = 3, name = "up", type = "bool" } ] } },
  { id = 5, name = "note", type = "string", length = 40, optional = true },
  { id = 6, name = "serial", type = "u32", access = 1 } ]
event = [{ id = 1, name = "fast", when = "greater", target = [1] }]

[[instance]]
class = 0x1001
id = 1

[[instance]]
class = 0x1001
id = 2

[[instance]]
class = 0x1001
id = 3
"#;

// Transactions of it: `t` changes both elements, `a` and `b` do so within scopes, and `ro` changes what can only be read.
const TRANSACTIONS: &str = r#"
[[transaction]]
name = "t"
change = [
  { element = 1, body = "lfb 00001001 00000001\n  SET\n    path 1\n      full 0000000A\n" },
  { element = 2, body = "lfb 00001001 00000001\n  SET\n    path 1\n      full 00000014\n" },
]

[[transaction]]
name = "a"
scoped = true
change = [
  { element = 1, body = "lfb 00001001 00000001\n  SET\n    path 1\n      full 0000000A\n" },
  { element = 2, body = "lfb 00001001 00000001\n  SET\n    path 1\n      full 00000014\n" },
]

[[transaction]]
name = "b"
scoped = true
change = [
  { element = 1, body = "lfb 00001001 00000002\n  SET\n    path 1\n      full 0000001E\n" },
  { element = 2, body = "lfb 00001001 00000002\n  SET\n    path 1\n      full 0000001E\n" },
]

[[transaction]]
name = "ro"
scoped = false
change = [{ element = 1, body = "lfb 00001001 00000001\n  SET\n    path 6\n      full 00000001\n" }]
"#;

// What is told of it before the steps.
const NETWORK_TOLD: &str = "class 4097 Port
instance 4097 1
instance 4097 2
instance 4097 3
element 1 of 40000001
element 2 of 40000001
controller 40000001
controller 40000002
whole t 1:1 2:1
scoped a 1:1 2:1
scoped b 1:1 2:1
whole ro 1:1
";

// The steps of scripts, each text in a line, and what is told of them: the place of each text, and what it says. A range of deliveries is
// one step for each message.
const STEPS: &str = "start 1 1
open 1 1
open 2 1
deliver 1-12
begin 1 t
deliver 13-28
=>
1 start 1 1
2 open 1 1
3 open 2 1
4 deliver 1 to 12
5 begin 1 t
6 deliver 13 to 28

deliver 13-21
deliver 21
deliver 21
deliver 22-28
=>
1 deliver 13 to 21
2 deliver 21 to 21
3 deliver 21 to 21
4 deliver 22 to 28

begin 1 t
deliver 13-25
stop 1
start 2 1
open 1 2
open 2 2
deliver 28-45
deliver 26
=>
1 begin 1 t
2 deliver 13 to 25
3 stop 1
4 start 2 1
5 open 1 2
6 open 2 2
7 deliver 28 to 45
8 deliver 26 to 26

deliver 13
stop 1
start 2 1
open 1 2
open 2 2
deliver 16-21
deliver 14
=>
1 deliver 13 to 13
2 stop 1
3 start 2 1
4 open 1 2
5 open 2 2
6 deliver 16 to 21
7 deliver 14 to 14

deliver 13-23
giveup 1 257.1
start 2 1
open 1 2
open 2 2
deliver 26-45
deliver 25
=>
1 deliver 13 to 23
2 giveup 1 257.1
3 start 2 1
4 open 1 2
5 open 2 2
6 deliver 26 to 45
7 deliver 25 to 25

start 1 1
stop 1
start 1 1
=>
1 start 1 1
2 stop 1
3 start 1 1

start 1 1
open 1 1
deliver 1-6
begin 1 ro
deliver 7-14
=>
1 start 1 1
2 open 1 1
3 deliver 1 to 6
4 begin 1 ro
5 deliver 7 to 14

begin 1 a
begin 1 b
deliver 13-44
=>
1 begin 1 a
2 begin 1 b
3 deliver 13 to 44

begin 1 a
begin 1 a
=>
1 begin 1 a
2 begin 1 a

forget 1
deliver 29-32
deliver 13
=>
1 forget 1
2 deliver 29 to 32
3 deliver 13 to 13

deliver 13-25
restart 2
deliver 26
open 2 1
deliver 27-31
=>
1 deliver 13 to 25
2 restart 2
3 deliver 26 to 26
4 open 2 1
5 deliver 27 to 31

plain 1 ro
resend 1 2
moment 2 30001
=>
1 plain 1 ro
2 resend 1 2
3 moment 2 30001

=>
";

const CONTROLLERS: &str = "controller = [{ id = 0x40000001 }, { id = 0x40000002 }]\n";

// The text with something else where it has a mark.
fn filled(alloc: Global, text: &str, mark: &str, with: &str) -> Result<String, Fail> {
    let mut filled = String::new(alloc);
    let mut is_first = true;
    for piece in text.split(mark) {
        if !is_first {
            filled.push_str(with)?;
        }
        filled.push_str(piece)?;
        is_first = false;
    }
    Ok(filled)
}

// The document of the network with these steps.
fn document(alloc: Global, texts: &str) -> Result<String, Fail> {
    let mut document = String::from_str(alloc, CONTROLLERS)?;
    document.push_str("steps = [")?;
    let mut list = filled(alloc, texts, "\n", "\", \"")?;
    if !list.is_empty() {
        list = format!(in alloc; "\"{list}\"")?;
    }
    document.push_str(list.as_str())?;
    document.push_str("]\n")?;
    document.push_str(NETWORK)?;
    document.push_str(TRANSACTIONS)?;
    Ok(document)
}

#[test]
fn networks_have_their_scripts(rt: HostRuntime) -> Result<(), Fail> {
    let alloc = rt.alloc();
    for case in STEPS.split("\n\n") {
        let (texts, steps) = case.split_once("=>").ok_or(case)?;
        let document = document(alloc, texts.trim())?;
        let steps = steps.trim();
        let wanted = format!(in alloc; "{NETWORK_TOLD}{steps}\n")?;
        let told = told(alloc, document.as_bytes())?;
        let told = str::from_utf8(told.as_slice()).ok().ok_or("a text")?;
        assert_eq!(rt; told.trim(), wanted.as_str().trim(), "{case}");
    }
    Ok(())
}

#[test]
fn one_element_and_one_controller_do_nothing(rt: HostRuntime) -> Result<(), Fail> {
    let told = told(
        rt.alloc(),
        "element = [{ id = 1, ce = 0x40000001 }]\ncontroller = [{ id = 0x40000001 }]\nsteps = []\n".as_bytes(),
    )?;
    let wanted = "element 1 of 40000001\ncontroller 40000001\n";
    assert_eq!(rt; told.as_slice(), wanted.as_bytes());
    Ok(())
}
