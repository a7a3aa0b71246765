// Views of ILVs in bytes, and ILVs that own theirs.
ghost use Rattle.std.specs.Prelude.{◌≡◌, ◌≤◌, ◌<◌, ◌+◌, ◌%◌, ◌^◌, length, IfOk};
ghost use Rattle.fc_wire.specs.Tiling.{Answers, next_of, rest_of};
ghost use Rattle.fc_wire.specs.Ilvs.{AreIlvs, ilvs, one_ilv};

use crate::{WireFault, read_u32};
use fc_base::{Duplicate, Memory, Octets};
use std::marker::Model;

/// An ILV that owns the bytes of its value.
#[derive(Debug, Drop, PartialEq, Eq)]
pub struct Ilv {
    /// The identifier.
    pub ident: u32,
    /// The value, without padding.
    pub value: Octets,
}

impl Duplicate for Ilv {
    fn copy(&self) -> Result<Self, Memory> {
        let value = self.value.copy()?;
        Ok(Ilv {
            ident: self.ident,
            value,
        })
    }
}

/// An ILV of the bytes that a view was given (RFC 5810, section 6.3).
#[derive(Debug, Drop)]
pub struct IlvRef<'a> {
    /// The identifier.
    pub ident: u32,
    /// The place of the first byte.
    pub place: usize,
    /// The value, without padding.
    pub body: &'a [u8],
}

impl<'a> Model for IlvRef<'a> {
    ghost use Rattle.fc_wire.specs.Ilvs.{IlvItem};

    ghost Value = { IlvItem };

    ghost view = { λ i. record { ident = i.ident; place = i.place; body = i.body.now } };
}

/// The ILVs of bytes, lent one after the other.
#[derive(Debug, Drop)]
pub struct Ilvs<'a> {
    rest: &'a [u8],
    place: usize,
}

impl<'a> Model for Ilvs<'a> {
    ghost use Rattle.std.specs.Prelude.{◌≡◌, ◌<◌, ◌+◌, ◌%◌, ◌^◌, length};
    ghost use Rattle.fc_wire.specs.Tiling.{Tiling};
    ghost use Rattle.fc_wire.specs.Ilvs.{IlvItem, ilvs};

    ghost Value = { Tiling IlvItem };

    ghost view = { λ i. ilvs i.place i.rest.now };

    ghost invariant = { λ i. (length i.rest.now % 4 ≡ 0) × (i.place + length i.rest.now < 2 ^ 64) };
}

// The ILV at the front of bytes from a place on, and what stands behind it.
#[inline(always)]
#[tactic(auto, unfolding(crate::specs::Ilvs::one_ilv))]
fn first<'a>(bytes: &'a [u8], place: usize) -> Result<(IlvRef<'a>, &'a [u8]), WireFault>
    requires whole { length bytes.now % 4 ≡ 0 }
    requires fits { place + length bytes.now < 2 ^ 64 }
    ensures exact { Answers (λ x. (x.0, x.1.now)) result (one_ilv place bytes.now) }
    ensures whole { IfOk result (λ x. length x.1.now % 4 ≡ 0) }
    ensures less { IfOk result (λ x. length x.1.now + 8 ≤ length bytes.now) }
{
    if bytes.len() < 8 {
        return Err(WireFault::TlvShort { place });
    }
    let len = read_u32(bytes, 4) as usize;
    if len < 8 {
        return Err(WireFault::TlvShort { place });
    }
    if bytes.len() < len {
        return Err(WireFault::TlvPast { place });
    }
    let padded = (len + 3) / 4 * 4;
    let ilv = IlvRef {
        ident: read_u32(bytes, 0),
        place,
        body: &bytes[8..len],
    };
    Ok((ilv, &bytes[padded..]))
}

impl<'a> Ilvs<'a> {
    /// The ILVs of bytes, the first of which stands at a place.
    #[inline(always)]
    pub fn over(bytes: &'a [u8], place: usize) -> Ilvs<'a>
        requires whole { length bytes.now % 4 ≡ 0 }
        requires fits { place + length bytes.now < 2 ^ 64 }
        ensures exact { result ≡ ilvs place bytes.now }
        ensures described { AreIlvs place result bytes.now }
    {
        Ilvs { rest: bytes, place }
    }

    /// The next ILV, or why there is none: `TlvShort` where there is no room for its head or its length does not count
    /// the head, `TlvPast` where it is longer than what is left, each at its place. After a fault, and at the end,
    /// `None`.
    #[inline(always)]
    pub fn next(&mut self) -> Option<Result<IlvRef<'a>, WireFault>>
        ensures next { result ≡ next_of self.old.items self.old.fault }
        ensures rest { self.new ≡ rest_of self.old.items self.old.fault }
    {
        if self.rest.is_empty() {
            return None;
        }
        match first(self.rest, self.place) {
            Ok((ilv, rest)) => {
                self.place += self.rest.len() - rest.len();
                self.rest = rest;
                Some(Ok(ilv))
            }
            Err(fault) => {
                self.rest = &[];
                Some(Err(fault))
            }
        }
    }
}
