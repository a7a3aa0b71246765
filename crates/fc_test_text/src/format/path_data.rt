// The heads of PATH-DATA, which are lent.
use fc_base::Memory;
use fc_path::{Ids, KeyRef, PathHead};
use fc_test_kit::bytes_of;
use fc_wire::{Tlv, Tlvs};
use std::alloc::{AllocError, Global};
use std::test::Fail;

// The first TLV of bytes, which stands at 24.
fn first<'a>(bytes: &'a [u8]) -> Option<Tlv<'a>> {
    if bytes.len() % 4 != 0 || bytes.len() > 1000 {
        return None;
    }
    match Tlvs::over(bytes, 24).next() {
        Some(Ok(tlv)) => Some(tlv),
        _ => None,
    }
}

// The IDs that are lent, of which there are three at most.
fn lent_ids(alloc: Global, ids: &mut Ids) -> Result<Vec<u32>, AllocError> {
    let mut found = Vec::new(alloc);
    for _ in 0..4 {
        if let Some(id) = ids.next() {
            found.push(id)?;
        }
    }
    Ok(found)
}

// Whether the key is the one with the number 1 and this value.
fn is_key(key: &Option<KeyRef>, value: Option<&[u8]>) -> bool {
    match (key, value) {
        (Some(key), Some(value)) => key.ident == 1 && key.value == value,
        (None, None) => true,
        _ => false,
    }
}

// Whether the first of the TLVs is a whole value of one byte, AB.
fn begins_with_ab(tlvs: &mut Tlvs) -> bool {
    match tlvs.next() {
        Some(Ok(tlv)) => tlv.kind == 0x0112 && tlv.body == [0xab].as_slice(),
        _ => false,
    }
}

// What a head is to lend: the IDs, the value of the key, where the head ends, and whether a body is left.
#[derive(Clone, Copy)]
struct Wanted<'a> {
    ids: &'a [u32],
    key: Option<&'a [u8]>,
    end: usize,
    is_left: bool,
}

// Whether the head of a TLV is as wanted.
fn lends(alloc: Global, tlv: &Tlv, wanted: Wanted) -> Result<bool, Memory> {
    let mut head = match PathHead::read(tlv) {
        Ok(head) => head,
        Err(_) => return Ok(false),
    };
    let ids = lent_ids(alloc, &mut head.ids)?;
    Ok(
        ids.as_slice() == wanted.ids
            && is_key(&head.key, wanted.key)
            && head.end == wanted.end
            && begins_with_ab(&mut head.body) == wanted.is_left,
    )
}

// Whether the head of the PATH-DATA of digits is as wanted.
fn is_head(alloc: Global, digits: &str, wanted: Wanted) -> Result<bool, Memory> {
    let bytes = bytes_of(alloc, digits)?;
    match first(&bytes) {
        Some(tlv) => lends(alloc, &tlv, wanted),
        None => Ok(false),
    }
}

#[test]
fn heads_of_ids_are_lent(rt: HostRuntime) -> Result<(), Fail> {
    let alloc = rt.alloc();
    let one = Wanted {
        ids: &[7],
        key: None,
        end: 44,
        is_left: true,
    };
    assert!(rt; is_head(alloc, "01100014 7FFF0001 00000007 01120005 AB000000", one)?);
    let two = Wanted {
        ids: &[7, 8],
        key: None,
        end: 40,
        is_left: false,
    };
    assert!(rt; is_head(alloc, "01100010 00000002 00000007 00000008", two)?);
    let none = Wanted {
        ids: &[],
        key: None,
        end: 32,
        is_left: false,
    };
    assert!(rt; is_head(alloc, "01100008 00000000", none)?);
    Ok(())
}

#[test]
fn the_key_of_a_head_is_lent(rt: HostRuntime) -> Result<(), Fail> {
    let digits = "01100024 80000001 00000007 01110010 00000001 01120008 65746830 01120005 AB000000";
    let keyed = Wanted {
        ids: &[7],
        key: Some(b"eth0"),
        end: 60,
        is_left: true,
    };
    assert!(rt; is_head(rt.alloc(), digits, keyed)?);
    Ok(())
}
