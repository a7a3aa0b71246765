// Views of TLVs in bytes.
ghost use Rattle.std.specs.Prelude.{◌≡◌, ◌≤◌, ◌<◌, ◌+◌, ◌%◌, ◌^◌, length, take, IfOk};
ghost use Rattle.fc_wire.specs.Tiling.{Answers, next_of, rest_of};
ghost use Rattle.fc_wire.specs.Tlvs.{AreTlvs, tlvs, one_tlv};

use crate::{WireFault, read_u16};
use std::marker::Model;

/// A TLV of the bytes that a view was given (RFC 5810, section 6.2).
#[derive(Debug, Drop)]
pub struct Tlv<'a> {
    /// The type.
    pub kind: u16,
    /// The place of the first byte.
    pub place: usize,
    /// The value, without padding.
    pub body: &'a [u8],
    padded: &'a [u8],
}

impl<'a> Model for Tlv<'a> {
    ghost use Rattle.fc_wire.specs.Tlvs.{TlvItem, Lent};

    ghost Value = { TlvItem };

    ghost view = { λ t. record { kind = t.kind; place = t.place; body = t.body.now; padded = t.padded.now } };

    ghost invariant = { λ t. Lent (record { kind = t.kind; place = t.place; body = t.body.now; padded = t.padded.now }) };
}

impl<'a> Tlv<'a> {
    /// The value up to its length rounded up to a multiple of four, over which a container is read.
    #[inline(always)]
    pub fn padded(&self) -> &'a [u8]
        ensures padded { result.now ≡ self.now.padded }
        ensures whole { length result.now % 4 ≡ 0 }
        ensures front { self.now.body ≡ take (length self.now.body) result.now }
        ensures cut { length self.now.body ≤ length result.now }
        ensures few { length result.now < length self.now.body + 4 }
        ensures within { self.now.place + 4 + length result.now < 2 ^ 64 }
    {
        self.padded
    }
}

/// The TLVs of bytes, lent one after the other.
#[derive(Debug, Drop)]
pub struct Tlvs<'a> {
    rest: &'a [u8],
    place: usize,
}

impl<'a> Model for Tlvs<'a> {
    ghost use Rattle.std.specs.Prelude.{◌≡◌, ◌<◌, ◌+◌, ◌%◌, ◌^◌, length};
    ghost use Rattle.fc_wire.specs.Tiling.{Tiling};
    ghost use Rattle.fc_wire.specs.Tlvs.{TlvItem, tlvs};

    ghost Value = { Tiling TlvItem };

    ghost view = { λ t. tlvs t.place t.rest.now };

    ghost invariant = { λ t. (length t.rest.now % 4 ≡ 0) × (t.place + length t.rest.now < 2 ^ 64) };
}

// The TLV at the front of bytes from a place on, and what stands behind it.
#[inline(always)]
#[tactic(auto, unfolding(crate::specs::Tlvs::one_tlv))]
fn first<'a>(bytes: &'a [u8], place: usize) -> Result<(Tlv<'a>, &'a [u8]), WireFault>
    requires whole { length bytes.now % 4 ≡ 0 }
    requires fits { place + length bytes.now < 2 ^ 64 }
    ensures exact { Answers (λ x. (x.0, x.1.now)) result (one_tlv place bytes.now) }
    ensures whole { IfOk result (λ x. length x.1.now % 4 ≡ 0) }
    ensures less { IfOk result (λ x. length x.1.now + 4 ≤ length bytes.now) }
{
    if bytes.len() < 4 {
        return Err(WireFault::TlvShort { place });
    }
    let len = usize::from(read_u16(bytes, 2));
    if len < 4 {
        return Err(WireFault::TlvShort { place });
    }
    if bytes.len() < len {
        return Err(WireFault::TlvPast { place });
    }
    let padded = (len + 3) / 4 * 4;
    let tlv = Tlv {
        kind: read_u16(bytes, 0),
        place,
        body: &bytes[4..len],
        padded: &bytes[4..padded],
    };
    Ok((tlv, &bytes[padded..]))
}

impl<'a> Tlvs<'a> {
    /// The TLVs of bytes, the first of which stands at a place.
    #[inline(always)]
    pub fn over(bytes: &'a [u8], place: usize) -> Tlvs<'a>
        requires whole { length bytes.now % 4 ≡ 0 }
        requires fits { place + length bytes.now < 2 ^ 64 }
        ensures exact { result ≡ tlvs place bytes.now }
        ensures described { AreTlvs place result bytes.now }
    {
        Tlvs { rest: bytes, place }
    }

    /// The next TLV, or why there is none: `TlvShort` where there is no room for its head or its length does not count
    /// the head, `TlvPast` where it is longer than what is left, each at its place. After a fault, and at the end,
    /// `None`.
    #[inline(always)]
    pub fn next(&mut self) -> Option<Result<Tlv<'a>, WireFault>>
        ensures next { result ≡ next_of self.old.items self.old.fault }
        ensures rest { self.new ≡ rest_of self.old.items self.old.fault }
    {
        if self.rest.is_empty() {
            return None;
        }
        match first(self.rest, self.place) {
            Ok((tlv, rest)) => {
                self.place += self.rest.len() - rest.len();
                self.rest = rest;
                Some(Ok(tlv))
            }
            Err(fault) => {
                self.rest = &[];
                Some(Err(fault))
            }
        }
    }
}
