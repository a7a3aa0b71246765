// Lists, bytes and texts are copied.
use fc_base::{Boxed, Duplicate, List, Octets, Text};
use std::test::Fail;

#[test]
fn lists_are_copied(rt: HostRuntime) -> Result<(), Fail> {
    let mut numbers = List::new(rt.alloc());
    numbers.push(7u32)?;
    numbers.push(9)?;
    assert_eq!(rt; numbers.copy()?.as_slice(), [7u32, 9].as_slice());
    Ok(())
}

#[test]
fn bytes_are_copied(rt: HostRuntime) -> Result<(), Fail> {
    let mut octets = Octets::from_slice(rt.alloc(), b"ab")?;
    octets.append(b"c")?;
    assert_eq!(rt; octets.copy()?.into_vec().as_slice(), b"abc".as_slice());
    Ok(())
}

#[test]
fn texts_are_copied(rt: HostRuntime) -> Result<(), Fail> {
    let text = Text::from_str(rt.alloc(), "port")?;
    assert_eq!(rt; text.copy()?.as_str(), "port");
    Ok(())
}

#[test]
fn a_box_holds_what_was_put_into_it(rt: HostRuntime) -> Result<(), Fail> {
    assert_eq!(rt; *Boxed::new(rt.alloc(), 5u32)?.get(), 5);
    Ok(())
}
