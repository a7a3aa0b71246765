// What an element says, and changes.
use fc_base::{Code, List, Memory, Octets, Shared};
use fc_msg::{Message, MsgBody};
use fc_path::{Body, Oper, OperKind, PathData, Select};
use fc_wire::Flags;
use std::alloc::Global;

// Class Mastership, and a port.
const MASTERSHIP: (u32, u32) = (126_977, 1);

const PORT: u32 = 4097;

// A message of element 1 to the control element.
pub(crate) fn message(corr: u64, body: MsgBody) -> Message {
    Message {
        source: 1,
        dest: 0x4000_0001,
        corr,
        flags: Flags {
            ack: 0,
            pri: 0,
            em: 0,
            at: false,
            tp: 0,
        },
        body,
    }
}

fn path(alloc: Global, id: u32, body: Body) -> Result<PathData, Memory> {
    Ok(PathData {
        ids: List::from_slice(alloc, &[id])?,
        key: None,
        body,
    })
}

// The selects of one operation on these paths of one instance.
fn selects(
    alloc: Global,
    (class, instance): (u32, u32),
    kind: OperKind,
    paths: List<PathData>,
) -> Result<List<Select>, Memory> {
    let mut opers = List::new(alloc);
    opers.push(Oper::Paths(kind, Shared::of(paths)?))?;
    let mut selects = List::new(alloc);
    selects.push(Select {
        class,
        instance,
        opers,
    })?;
    Ok(selects)
}

// The response to a Config with one code.
pub(crate) fn response(alloc: Global, code: u8) -> Result<MsgBody, Memory> {
    let mut paths = List::new(alloc);
    paths.push(path(alloc, 5, Body::Outcome(Code(code)))?)?;
    let answers = selects(alloc, MASTERSHIP, OperKind::SetResponse, paths)?;
    Ok(MsgBody::ConfigResponse(answers))
}

// The answer to the ask for what is held: an epoch, and nothing.
pub(crate) fn held(alloc: Global, epoch: u32) -> Result<MsgBody, Memory> {
    let word = Octets::from_slice(alloc, &epoch.to_be_bytes())?;
    let mut paths = List::new(alloc);
    paths.push(path(alloc, 1, Body::Full(word))?)?;
    paths.push(path(alloc, 7, Body::Full(Octets::new(alloc)))?)?;
    let answers = selects(alloc, MASTERSHIP, OperKind::GetResponse, paths)?;
    Ok(MsgBody::QueryResponse(answers))
}

// The selects of one operation of this kind on component 1 of an instance of Port, with a value of so many bytes.
pub(crate) fn change(
    alloc: Global,
    instance: u32,
    kind: OperKind,
    count: usize,
) -> Result<List<Select>, Memory> {
    let mut bytes = Vec::new(alloc);
    bytes.resize(count, 0)?;
    let value = Octets::from_vec(bytes);
    let mut paths = List::new(alloc);
    paths.push(path(alloc, 1, Body::Full(value))?)?;
    selects(alloc, (PORT, instance), kind, paths)
}
