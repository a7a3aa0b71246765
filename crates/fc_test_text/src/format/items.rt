// TLVs and ILVs that stand in the specification of the format.
ghost use Rattle.std.specs.Prelude.{◌≡◌, OnOk};

use fc_base::{Duplicate, Memory, Octets, WriteFault};
use fc_wire::{Ilv, Ilvs, TlvWriter, Tlvs, WireFault, push_padding};
use std::alloc::Global;
use std::test::Fail;

// The query of one component with its answer, without their headers.
const QUERY: [u8; 28] = [
    0x10, 0, 0, 0x1c, 0, 0, 0, 1, 0, 0, 0, 1, 0, 7, 0, 0x10, 1, 0x10, 0, 0x0c, 0, 0, 0, 1, 0, 0, 0,
    7,
];

const ANSWER: [u8; 36] = [
    0x10, 0, 0, 0x24, 0, 0, 0, 1, 0, 0, 0, 1, 0, 9, 0, 0x18, 1, 0x10, 0, 0x14, 0, 0, 0, 1, 0, 0, 0,
    7, 1, 0x12, 0, 5, 2, 0, 0, 0,
];

#[test]
fn tlvs_stand_at_their_places(rt: HostRuntime) -> Result<(), Fail> {
    let cut: [u8; 12] = [0, 2, 0, 5, 1, 9, 9, 9, 0, 3, 0, 4];
    let cases: [(&[u8], usize, [(u16, usize, usize, usize); 2]); 9] = [
        (&QUERY, 24, [(0x1000, 24, 24, 24), (0, 0, 0, 0)]),
        (&QUERY[12..], 36, [(7, 36, 12, 12), (0, 0, 0, 0)]),
        (&QUERY[16..], 40, [(0x110, 40, 8, 8), (0, 0, 0, 0)]),
        (&ANSWER, 24, [(0x1000, 24, 32, 32), (0, 0, 0, 0)]),
        (&ANSWER[12..], 36, [(9, 36, 20, 20), (0, 0, 0, 0)]),
        (&ANSWER[16..], 40, [(0x110, 40, 16, 16), (0, 0, 0, 0)]),
        (&ANSWER[28..], 52, [(0x112, 52, 1, 4), (0, 0, 0, 0)]),
        (&cut, 0, [(2, 0, 1, 4), (3, 8, 0, 0)]),
        (&[], 8, [(0, 0, 0, 0), (0, 0, 0, 0)]),
    ];
    for (bytes, place, want) in cases {
        assert_eq!(rt; two_tlvs(bytes, place), want, "at {place}");
    }
    Ok(())
}

// Type, place, length and padded length of the first two TLVs, with zeros where there is none.
fn two_tlvs(bytes: &[u8], place: usize) -> [(u16, usize, usize, usize); 2] {
    let mut found = [(0, 0, 0, 0); 2];
    if bytes.len() % 4 != 0 || place > 1000 {
        return found;
    }
    let mut tlvs = Tlvs::over(bytes, place);
    for item in &mut found {
        if let Some(Ok(tlv)) = tlvs.next() {
            *item = (tlv.kind, tlv.place, tlv.body.len(), tlv.padded().len());
        }
    }
    found
}

// The identifiers, the places and the lengths of the first two ILVs of bytes, with zeros where there is none, and the fault of the third.
fn two_ilvs(bytes: &[u8], place: usize) -> ([(u32, usize, usize); 2], Option<WireFault>) {
    let mut found = [(0, 0, 0); 2];
    if bytes.len() % 4 != 0 || place > 1000 {
        return (found, None);
    }
    let mut ilvs = Ilvs::over(bytes, place);
    for item in &mut found {
        match ilvs.next() {
            Some(Ok(ilv)) => *item = (ilv.ident, ilv.place, ilv.body.len()),
            Some(Err(fault)) => return (found, Some(fault)),
            None => return (found, None),
        }
    }
    match ilvs.next() {
        Some(Err(fault)) => (found, Some(fault)),
        _ => (found, None),
    }
}

#[test]
fn ilvs_stand_at_their_places(rt: HostRuntime) -> Result<(), Fail> {
    let bytes: [u8; 28] = [
        0, 0, 0, 5, 0, 0, 0, 9, 7, 0, 0, 0, 0, 0, 1, 2, 0, 0, 0, 8, 0, 0, 0, 1, 0, 0, 0, 9,
    ];
    let (ilvs, fault) = two_ilvs(&bytes, 100);
    assert_eq!(rt; ilvs, [(5, 100, 1), (0x102, 112, 0)]);
    assert!(rt; fault == Some(WireFault::TlvPast { place: 120 }));
    let (_, fault) = two_ilvs(&[0, 0, 0, 8], 60);
    assert!(rt; fault == Some(WireFault::TlvShort { place: 60 }));
    Ok(())
}

#[test]
fn an_ilv_is_copied(rt: HostRuntime) -> Result<(), Fail> {
    let value = Octets::from_slice(rt.alloc(), &[7])?;
    let ilv = Ilv { ident: 5, value };
    assert!(rt; ilv.copy()? == ilv);
    Ok(())
}

// Writes a TLV of these bytes.
fn write_tlv(writer: &mut TlvWriter, kind: u16, value: &[u8]) -> Result<(), WriteFault>
    ensures { OnOk result (writer.new.places ≡ writer.old.places) }
{
    let begun = writer.begin(kind)?;
    writer.put(value)?;
    writer.end(begun)
}

// A writer that was cleared once bytes were put.
fn cleared(alloc: Global) -> Result<TlvWriter, Memory> {
    let mut writer = TlvWriter::new(alloc);
    writer.put(&[0, 0, 0, 1])?;
    writer.clear();
    Ok(writer)
}

#[test]
fn a_writer_that_is_cleared_begins_anew(rt: HostRuntime) -> Result<(), Fail> {
    let mut writer = cleared(rt.alloc())?;
    assert!(rt; writer.as_slice().is_empty());
    write_tlv(&mut writer, 12, &[])?;
    assert_eq!(rt; writer.finish().as_slice(), [0u8, 12, 0, 4].as_slice());
    Ok(())
}

// Begins a TLV of these bytes and one more, and tells what its end answers. Behind it come another byte and padding.
fn write_longer(writer: &mut TlvWriter, value: &[u8]) -> Result<Result<(), WriteFault>, Memory> {
    let longer = writer.begin(0x112)?;
    writer.put(value)?;
    writer.put(&[1])?;
    let answer = writer.end(longer);
    writer.put(&[1])?;
    writer.pad()?;
    Ok(answer)
}

// The bytes of the longest TLV with those of a longer one behind it, and what the end of that one answers.
fn longest_and_longer(alloc: Global) -> Result<(Vec<u8>, Result<(), WriteFault>), Fail> {
    let value = vec![in alloc; 1u8; 65531]?;
    let mut writer = TlvWriter::new(alloc);
    write_tlv(&mut writer, 0x112, &value)?;
    let answer = write_longer(&mut writer, &value)?;
    Ok((writer.finish(), answer))
}

#[test]
fn the_longest_tlv_is_written_and_a_longer_one_refused(rt: HostRuntime) -> Result<(), Fail> {
    let (bytes, answer) = longest_and_longer(rt.alloc())?;
    assert!(rt; answer == Err(WriteFault::TooLong));
    assert_eq!(rt; bytes.len(), 65536 + 65536 + 4);
    for (at, want) in [(3, 0xff), (4, 1), (65535, 0), (65536, 1), (65539, 0)] {
        assert_eq!(rt; bytes.get(at).copied(), Some(want), "at {at}");
    }
    Ok(())
}

// Two numbers, and the padding that a length of 5 lacks.
fn numbers(alloc: Global) -> Result<Vec<u8>, Memory> {
    let mut writer = TlvWriter::new(alloc);
    writer.put_u16(0x0112)?;
    writer.put_u32(0x4000_0001)?;
    writer.put_padding(5)?;
    Ok(writer.finish())
}

#[test]
fn numbers_are_put(rt: HostRuntime) -> Result<(), Fail> {
    let bytes = numbers(rt.alloc())?;
    let wanted = [1u8, 0x12, 0x40, 0, 0, 1, 0, 0, 0];
    assert_eq!(rt; bytes.as_slice(), wanted.as_slice());
    Ok(())
}

// Two bytes, the padding that a length of 2 lacks, and that of a length of 4.
fn padded(alloc: Global) -> Result<Vec<u8>, Memory> {
    let mut bytes = Vec::from_slice(alloc, b"ab")?;
    push_padding(&mut bytes, 2)?;
    push_padding(&mut bytes, 4)?;
    Ok(bytes)
}

#[test]
fn padding_is_put(rt: HostRuntime) -> Result<(), Fail> {
    let bytes = padded(rt.alloc())?;
    assert_eq!(rt; bytes.as_slice(), [b'a', b'b', 0, 0].as_slice());
    Ok(())
}
