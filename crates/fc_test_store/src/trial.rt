// What the lines of a table do with a configuration, and what it answers.
use crate::full::{falling, rising};
use crate::library::opened;
use crate::words::{ilvs, spot};
use fc_base::{Code, List, Memory, OpFault, push_hex};
use fc_path::{Spot, Step};
use fc_store::{Purpose, Store, StoreMark};
use fc_test_kit::{bytes_of, cut};
use fc_value::Value;
use std::alloc::Global;
use std::test::Fail;

// A configuration, and the marks that stand over it, the newest last.
#[derive(Drop)]
pub(crate) struct Trial {
    alloc: Global,
    store: Store,
    marks: Vec<StoreMark>,
}

// The code of a change.
fn push_told(text: &mut Vec<u8>, answer: &Result<(), OpFault>) -> Result<(), Memory> {
    match answer {
        Ok(()) => push_hex(text, &[Code::SUCCESS.0]),
        Err(OpFault::Refused(code)) => push_hex(text, &[code.0]),
        Err(OpFault::Memory) => Err(Memory),
    }
}

// The digits of bytes, and `-` for none.
fn push_bytes(text: &mut Vec<u8>, bytes: &[u8]) -> Result<(), Memory> {
    if bytes.is_empty() {
        text.push(b'-')?;
    }
    push_hex(text, bytes)
}

// The code of what is read, and its bytes.
fn push_read(text: &mut Vec<u8>, answer: &Result<Vec<u8>, OpFault>) -> Result<(), Memory> {
    match answer {
        Ok(bytes) => {
            push_hex(text, &[Code::SUCCESS.0])?;
            text.push(b' ')?;
            push_bytes(text, bytes)
        }
        Err(OpFault::Refused(code)) => push_hex(text, &[code.0]),
        Err(OpFault::Memory) => Err(Memory),
    }
}

// What a component holds, with a blank behind it: `-` for no bytes, `absent` for no value, and nothing where there is no component.
fn push_part(text: &mut Vec<u8>, answer: &Result<Vec<u8>, OpFault>) -> Result<(), Memory> {
    match answer {
        Ok(bytes) => push_bytes(text, bytes)?,
        Err(OpFault::Refused(Code::NOT_FOUND)) => text.extend_from_slice(b"absent")?,
        Err(OpFault::Refused(_)) => return Ok(()),
        Err(OpFault::Memory) => return Err(Memory),
    }
    text.push(b' ')?;
    Ok(())
}

fn push_truth(text: &mut Vec<u8>, truth: bool) -> Result<(), Memory> {
    let word = if truth { "yes" } else { "no" };
    text.extend_from_slice(word.as_bytes())?;
    Ok(())
}

// The full form of what stands at a spot, as it is read or as it is looked at.
pub(crate) fn bytes_at(
    alloc: Global,
    store: &Store,
    purpose: Purpose,
    spot: &Spot,
) -> Result<Vec<u8>, OpFault> {
    let (ty, node) = match purpose {
        Purpose::Read => store.at(spot)?,
        _ => store.look(spot)?,
    };
    let mut bytes = Vec::new(alloc);
    node.write_full(ty, &mut bytes)?;
    Ok(bytes)
}

// How many entries a node has, and whether its copy is the value that stands there.
fn copied(alloc: Global, store: &Store, spot: &Spot) -> Result<(usize, bool), OpFault> {
    let (_, node) = store.look(spot)?;
    let copy = node.copy(alloc)?;
    let same = match &copy {
        Value::Table(entries) => node.entries() == entries.as_slice(),
        value => node.value() == Some(value),
    };
    Ok((node.entries().len(), same))
}

// The component with an ID in an instance.
fn component(alloc: Global, instance: &Spot, id: u32) -> Result<Spot, Memory> {
    let mut steps = List::new(alloc);
    steps.push(Step::Id(id))?;
    Ok(Spot {
        class: instance.class,
        instance: instance.instance,
        steps,
    })
}

// The instances of a class from 1 to that of a spot.
fn scope(alloc: Global, last: &Spot) -> Result<Vec<(u32, u32)>, Memory> {
    let mut pairs = Vec::new(alloc);
    for instance in 1..=last.instance {
        pairs.push((last.class, instance))?;
    }
    Ok(pairs)
}

impl Trial {
    // A configuration with so many instances of the class of one truth value.
    pub(crate) fn new(alloc: Global, truths: u32) -> Result<Trial, Fail> {
        Ok(Trial {
            alloc,
            store: opened(alloc, truths)?,
            marks: Vec::new(alloc),
        })
    }

    // The components 1 to 6 of an instance, with blanks between them.
    fn push_map(&self, text: &mut Vec<u8>, instance: &Spot) -> Result<(), Memory> {
        for id in 1..=6u32 {
            let place = component(self.alloc, instance, id)?;
            let part = bytes_at(self.alloc, &self.store, Purpose::Look, &place);
            push_part(text, &part)?;
        }
        let _ = text.pop();
        Ok(())
    }

    // Whether a table is that of so many entries.
    fn push_whole(&self, text: &mut Vec<u8>, place: &Spot, count: &str) -> Result<(), Fail> {
        let wanted = rising(self.alloc, count.parse::<u32>()?)?;
        let read = bytes_at(self.alloc, &self.store, Purpose::Read, place)?;
        push_truth(text, read == wanted)?;
        Ok(())
    }

    // How many entries are lent at a spot, and whether a copy is what stands there.
    fn push_node(&self, text: &mut Vec<u8>, place: &Spot) -> Result<(), Memory> {
        let answer = copied(self.alloc, &self.store, place);
        match &answer {
            Ok((entries, same)) => {
                push_hex(text, &entries.to_be_bytes())?;
                text.push(b' ')?;
                push_truth(text, *same)
            }
            Err(OpFault::Refused(code)) => push_hex(text, &[code.0]),
            Err(OpFault::Memory) => Err(Memory),
        }
    }

    // Puts bytes at the place of a spot in each instance of the class from 1 to that of the spot. Gives how many took them.
    fn put_each(&mut self, place: &mut Spot, bytes: &[u8]) -> u32 {
        let mut count = 0u32;
        for instance in 1..=place.instance {
            place.instance = instance;
            if self.store.put(place, bytes).is_ok() {
                count = count.wrapping_add(1);
            }
        }
        count
    }

    // In how many of these instances such bytes stand there.
    fn held(&self, place: &mut Spot, wanted: &[u8]) -> Result<u32, Memory> {
        let mut count = 0u32;
        for instance in 1..=place.instance {
            place.instance = instance;
            match bytes_at(self.alloc, &self.store, Purpose::Read, place) {
                Ok(bytes) if bytes.as_slice() == wanted => count = count.wrapping_add(1),
                Err(OpFault::Memory) => return Err(Memory),
                _ => {}
            }
        }
        Ok(count)
    }

    // What is answered for many instances: `each` puts, and `held` counts.
    fn push_count(&mut self, text: &mut Vec<u8>, name: &str, words: &str) -> Result<(), Fail> {
        let (word, digits) = cut(words, " ");
        let mut place = spot(self.alloc, word)?;
        let bytes = bytes_of(self.alloc, digits)?;
        let count = if name == "each" {
            self.put_each(&mut place, &bytes)
        } else {
            self.held(&mut place, &bytes)?
        };
        push_hex(text, &count.to_be_bytes())?;
        Ok(())
    }

    // A mark over all instances, or over those of a class from 1 to that of a spot.
    fn mark(&mut self, words: &str) -> Result<(), Fail> {
        let mark = if words.is_empty() {
            self.store.mark()?
        } else {
            let last = spot(self.alloc, words)?;
            self.store.mark_for(&scope(self.alloc, &last)?)?
        };
        self.marks.push(mark)?;
        Ok(())
    }

    // The newest mark goes back, or ends.
    fn end(&mut self, goes_back: bool) {
        if let Some(mark) = self.marks.pop() {
            if goes_back {
                self.store.rollback(mark);
            } else {
                self.store.release(mark);
            }
        }
    }

    // Goes on with a copy of what stands now, without marks, or with what stood at the marks.
    fn go_on(&mut self, settled: bool) -> Result<(), Memory> {
        let copy = if settled {
            self.store.settled_copy(&self.marks)?
        } else {
            self.store.copy()?
        };
        self.store = copy;
        self.marks.clear();
        Ok(())
    }

    // A change: `set`, `fill`, `sparse` or `del`.
    fn change(
        &mut self,
        name: &str,
        place: &Spot,
        words: &str,
    ) -> Result<Result<(), OpFault>, Fail> {
        Ok(if name == "set" {
            let bytes = bytes_of(self.alloc, words)?;
            self.store.put(place, &bytes)
        } else if name == "fill" {
            let bytes = falling(self.alloc, words.parse::<u32>()?)?;
            self.store.put(place, &bytes)
        } else if name == "sparse" {
            let ilvs = ilvs(self.alloc, words)?;
            self.store.merge(place, &ilvs)
        } else {
            self.store.remove(place)
        })
    }

    // Whether a change under a mark is done, or wants memory and leaves its instance as it was; and whether all is as it was once the mark has
    // gone back.
    fn push_kept(&mut self, text: &mut Vec<u8>, words: &str) -> Result<(), Fail> {
        let (name, words) = cut(words, " ");
        let (word, words) = cut(words, " ");
        let place = spot(self.alloc, word)?;
        let (mut before, mut now, mut after) = (
            Vec::new(self.alloc),
            Vec::new(self.alloc),
            Vec::new(self.alloc),
        );
        self.push_map(&mut before, &place)?;
        let mark = self.store.mark()?;
        let wanted = self.change(name, &place, words)?.is_err();
        self.push_map(&mut now, &place)?;
        self.store.rollback(mark);
        self.push_map(&mut after, &place)?;
        push_truth(text, wanted == (now == before) && after == before)?;
        Ok(())
    }

    // What is answered at a spot: to `map` each component of an instance, to `get` and `look` a code and bytes, and to a change its code.
    fn push_answer(&mut self, text: &mut Vec<u8>, name: &str, words: &str) -> Result<(), Fail> {
        let (word, words) = cut(words, " ");
        let place = spot(self.alloc, word)?;
        match name {
            "map" => self.push_map(text, &place)?,
            "get" => push_read(
                text,
                &bytes_at(self.alloc, &self.store, Purpose::Read, &place),
            )?,
            "look" => push_read(
                text,
                &bytes_at(self.alloc, &self.store, Purpose::Look, &place),
            )?,
            "node" => self.push_node(text, &place)?,
            "whole" => self.push_whole(text, &place, words)?,
            _ => {
                let answer = self.change(name, &place, words)?;
                push_told(text, &answer)?;
            }
        }
        Ok(())
    }

    // What a line answers, by its first word: `mark`, `back`, `keep`, `copy` and `settle` nothing.
    pub(crate) fn answer(&mut self, line: &str) -> Result<Vec<u8>, Fail> {
        let (name, words) = cut(line, " ");
        let mut text = Vec::new(self.alloc);
        match name {
            "mark" => self.mark(words)?,
            "back" => self.end(true),
            "keep" => self.end(false),
            "copy" => self.go_on(false)?,
            "settle" => self.go_on(true)?,
            "kept" => self.push_kept(&mut text, words)?,
            "each" | "held" => self.push_count(&mut text, name, words)?,
            _ => self.push_answer(&mut text, name, words)?,
        }
        Ok(text)
    }
}
