// A full index, filled in three orders: the number at a place is a multiple of the place, by 1 they rise, by the greatest factor they fall, and by
// another they are scattered. None stands at two places.
use fc_base::{Memory, Octets};
use fc_keys::KeyIndex;
use std::alloc::Global;
use std::test::Fail;

const MANY: u32 = 65_536;

const RISING: u32 = 1;

const FALLING: u32 = u32::MAX;

const SCATTERED: u32 = 2_654_435_761;

fn number(order: u32, place: u32) -> [u8; 4] {
    place.wrapping_mul(order).to_be_bytes()
}

fn filled(alloc: Global, order: u32) -> Result<(KeyIndex, u32), Memory> {
    let mut index = KeyIndex::new(alloc);
    let mut entered = 0u32;
    for place in 0..MANY {
        if index.insert(Octets::from_slice(alloc, &number(order, place))?, place)? {
            entered = entered.wrapping_add(1);
        }
    }
    Ok((index, entered))
}

// How many of the first so many keys lead to their own places.
fn found(index: &KeyIndex, order: u32, count: u32) -> u32 {
    let mut found = 0u32;
    for place in 0..count {
        if index.find(&number(order, place)) == Some(place) {
            found = found.wrapping_add(1);
        }
    }
    found
}

// Takes every third key out, and puts it back in the room that it left. Gives how many times both went well.
fn replaced(alloc: Global, index: &mut KeyIndex, order: u32) -> Result<u32, Memory> {
    let mut count = 0u32;
    for third in 0..MANY / 3 {
        let place = third.wrapping_mul(3);
        let key = Octets::from_slice(alloc, &number(order, place))?;
        let before = index.spare();
        let removed = index.remove(key.as_slice()) == Some(place);
        let gone = index.find(key.as_slice()).is_none();
        if index.spare() > before && index.insert_spare(key, place) && removed && gone {
            count = count.wrapping_add(1);
        }
    }
    Ok(count)
}

#[test]
fn a_full_index_leads_from_each_key_to_its_entry(rt: HostRuntime) -> Result<(), Fail> {
    let alloc = rt.alloc();
    for order in [RISING, FALLING, SCATTERED] {
        let (mut index, entered) = filled(alloc, order)?;
        assert_eq!(rt; entered, MANY);
        assert_eq!(rt; found(&index, order, MANY), MANY);
        assert_eq!(rt; replaced(alloc, &mut index, order)?, MANY / 3);
        assert_eq!(rt; found(&index, order, MANY), MANY);
        assert!(rt; !index.insert(Octets::from_slice(alloc, &number(order, 7))?, 8)?);
        assert_eq!(rt; found(&index, order, MANY), MANY);
    }
    Ok(())
}

// Enters so many pairs into the room that was made for them. Gives how many found it.
fn entered(alloc: Global, index: &mut KeyIndex, count: u32) -> Result<u32, Memory> {
    let mut entered = 0u32;
    for place in 0..count {
        let key = Octets::from_slice(alloc, &number(SCATTERED, place))?;
        if index.spare() > 0 && index.insert_spare(key, place) {
            entered = entered.wrapping_add(1);
        }
    }
    Ok(entered)
}

#[test]
fn room_for_a_full_index_is_made_at_once(rt: HostRuntime) -> Result<(), Fail> {
    let alloc = rt.alloc();
    for (count, room) in [(3, 3), (MANY, 65_536)] {
        let mut index = KeyIndex::new(alloc);
        index.reserve(room)?;
        assert_eq!(rt; index.spare(), room);
        assert_eq!(rt; entered(alloc, &mut index, count)?, count);
        assert_eq!(rt; index.spare(), 0);
        assert_eq!(rt; found(&index, SCATTERED, count), count);
        assert_eq!(rt; index.find(b"nothing"), None);
    }
    Ok(())
}

// Whether keys of all lengths up to 40 bytes, each the front of the next one, lead to their places.
fn lengths_differ(alloc: Global, index: &mut KeyIndex) -> Result<bool, Memory> {
    let bytes = [7u8; 41];
    for length in 0..41usize {
        if !index.insert(Octets::from_slice(alloc, &bytes[..length])?, length as u32)? {
            return Ok(false);
        }
    }
    for length in 0..41usize {
        if index.find(&bytes[..length]) != Some(length as u32) {
            return Ok(false);
        }
    }
    Ok(true)
}

#[test]
fn keys_of_all_lengths_stand_apart(rt: HostRuntime) -> Result<(), Fail> {
    let alloc = rt.alloc();
    let mut index = KeyIndex::new(alloc);
    assert!(rt; lengths_differ(alloc, &mut index)?);
    assert_eq!(rt; index.find(&[7; 41]), None);
    assert_eq!(rt; index.remove(&[7; 16]), Some(16));
    assert_eq!(rt; index.remove(&[7; 17]), Some(17));
    assert_eq!(rt; index.find(&[7; 16]), None);
    assert_eq!(rt; index.find(&[7; 18]), Some(18));
    Ok(())
}
