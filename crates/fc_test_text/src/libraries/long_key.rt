// A key of a document that is as long as it may be.
use crate::libraries::line;
use std::alloc::Global;
use std::test::Fail;

// What is told of a document of this key alone, and what is to be told.
fn lines_of_key(alloc: Global, key: &str) -> Result<(Vec<u8>, String), Fail> {
    let document = format!(in alloc; "{key} = 1\n")?;
    let told = line(alloc, document.as_bytes())?;
    Ok((told, format!(in alloc; "refused library unknown {key}\n")?))
}

#[test]
fn a_long_key_stands_whole_in_its_line(rt: HostRuntime) -> Result<(), Fail> {
    let key = "k".repeat(rt.alloc(), 1_000_000)?;
    let (told, wanted) = lines_of_key(rt.alloc(), &key)?;
    assert!(rt; told.as_slice() == wanted.as_bytes());
    Ok(())
}
