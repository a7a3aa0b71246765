// What is found is what is wanted. Steps of a test use these; a test itself asserts.
use std::fmt::Debug;
use std::test::Fail;

// Two values are equal.
pub(crate) fn equal<T: PartialEq + Debug>(found: &T, wanted: &T) -> Result<(), Fail> {
    if found == wanted {
        return Ok(());
    }
    Err(Fail::new(format_args!("{found:?} in place of {wanted:?}")))
}

// This is so.
pub(crate) fn sure(is_so: bool, what: &str) -> Result<(), Fail> {
    if is_so {
        return Ok(());
    }
    Err(Fail::new(format_args!("not so: {what}")))
}
