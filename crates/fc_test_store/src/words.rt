// The words of a line: spots as `CLASS/INSTANCE/STEP/STEP`, where a step is an ID or `KEY=BYTES`, and fields or entries as `ID:BYTES`.
use fc_base::{List, Octets};
use fc_path::{Spot, Step};
use fc_test_kit::{bytes_of, cut};
use fc_wire::Ilv;
use std::alloc::Global;
use std::test::Fail;

fn step(alloc: Global, word: &str) -> Result<Step, Fail> {
    let (id, digits) = cut(word, "=");
    let id = id.parse::<u32>()?;
    if digits.is_empty() {
        return Ok(Step::Id(id));
    }
    Ok(Step::Key(id, Octets::from_vec(bytes_of(alloc, digits)?)))
}

fn steps(alloc: Global, words: &str) -> Result<List<Step>, Fail> {
    let mut steps = List::new(alloc);
    for word in words.split("/") {
        if !word.is_empty() {
            steps.push(step(alloc, word)?)?;
        }
    }
    Ok(steps)
}

pub(crate) fn spot(alloc: Global, word: &str) -> Result<Spot, Fail> {
    let (class, rest) = cut(word, "/");
    let (instance, rest) = cut(rest, "/");
    Ok(Spot {
        class: class.parse::<u32>()?,
        instance: instance.parse::<u32>()?,
        steps: steps(alloc, rest)?,
    })
}

fn ilv(alloc: Global, word: &str) -> Result<Ilv, Fail> {
    let (ident, digits) = cut(word, ":");
    Ok(Ilv {
        ident: ident.parse::<u32>()?,
        value: Octets::from_vec(bytes_of(alloc, digits)?),
    })
}

// Fields or entries, with blanks between them.
pub(crate) fn ilvs(alloc: Global, words: &str) -> Result<Vec<Ilv>, Fail> {
    let mut ilvs = Vec::new(alloc);
    for word in words.split(" ") {
        ilvs.push(ilv(alloc, word)?)?;
    }
    Ok(ilvs)
}

// Bytes that are a text.
pub(crate) fn text_of(bytes: Vec<u8>) -> Result<String, Fail> {
    Ok(String::from_utf8(bytes).ok().ok_or("a text")?)
}
