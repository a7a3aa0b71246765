// The common header: 24 bytes in front of each message.
ghost use Rattle.std.specs.Prelude.{◌≡◌, ◌≤◌, length, take, IfOk, IfErr, Some, None};
ghost use Rattle.fc_wire.specs.Bytes.{u16_at};
ghost use Rattle.fc_wire.specs.Header.{IsHeader, HasFlags, header_bytes, header_fault, word_of};

use byteorder::{BigEndian, ByteOrder};
use std::marker::Model;

/// The flags of a header, each within its bits (RFC 5810, section 6.1).
#[derive(Clone, Copy, Debug, PartialEq, Eq)]
pub struct Flags {
    /// Which answer is wanted, 0 to 3: none, on success, on failure, always.
    pub ack: u8,
    /// The priority, 0 to 7.
    pub pri: u8,
    /// The execution mode, 0 to 3: reserved, all or none, until failure, continue on failure.
    pub em: u8,
    /// Whether the message is part of a transaction.
    pub at: bool,
    /// The phase of the transaction, 0 to 3: start, middle, end, abort.
    pub tp: u8,
}

impl Model for Flags {
    ghost use Rattle.fc_wire.specs.Flags.{FlagValues, FlagsFit};

    ghost Value = { FlagValues };

    ghost view = { λ s. record { ack = s.ack; pri = s.pri; em = s.em; at = s.at; tp = s.tp } };

    ghost invariant = { λ s. FlagsFit (record { ack = s.ack; pri = s.pri; em = s.em; at = s.at; tp = s.tp }) };

    ghost inverse = { λ v. record { ack = v.ack; pri = v.pri; em = v.em; at = v.at; tp = v.tp } };
}

impl Flags {
    /// The flags of a word; its other bits are free.
    pub fn from_word(word: u32) -> Flags
        ensures { HasFlags result word }
    {
        Flags {
            ack: (word >> 30) as u8,
            pri: ((word >> 27) % 8) as u8,
            em: ((word >> 22) % 4) as u8,
            at: (word >> 21) % 2 == 1,
            tp: ((word >> 19) % 4) as u8,
        }
    }

    /// The word of the flags, its other bits zero.
    #[inline(always)]
    pub fn word(self) -> u32
        ensures { result ≡ word_of self }
    {
        let atomic = if self.at { 1u32 << 21 } else { 0 };
        (u32::from(self.ack) << 30)
            + (u32::from(self.pri) << 27)
            + (u32::from(self.em) << 22)
            + atomic
            + (u32::from(self.tp) << 19)
    }
}

/// The common header of a message (RFC 5810, section 6.1).
#[derive(Clone, Copy, Debug, PartialEq, Eq)]
pub struct Header {
    /// The type of the message.
    pub kind: u8,
    /// The length of the whole message, header included, in units of four bytes.
    pub words: u16,
    /// The ID of the sender.
    pub source: u32,
    /// The ID of the addressee.
    pub dest: u32,
    /// The correlator, which an answer repeats.
    pub corr: u64,
    pub flags: Flags,
}

/// Why bytes do not have the format of the wire, and where: an offset from their start, or from the place that a view
/// was given.
#[derive(Clone, Copy, Debug, PartialEq, Eq)]
pub enum WireFault {
    /// The version of the header is not 1.
    Version { place: usize },
    /// The length in the header is less than that of a header.
    ShortLength { place: usize },
    /// There is no room for the head of a TLV or ILV, or its length is less than that of its head.
    TlvShort { place: usize },
    /// The length of a TLV or ILV passes the end of what holds it.
    TlvPast { place: usize },
}

impl Header {
    /// The header in the first 24 bytes. A version other than 1 is refused as `Version` at 0, and then a length of less
    /// than 6 words as `ShortLength` at 2.
    #[inline(always)]
    pub fn read(bytes: &[u8]) -> Result<Header, WireFault>
        requires { 24 ≤ length bytes.now }
        ensures header { IfOk result (λ h. IsHeader h (take 24 bytes.now)) }
        ensures words { IfOk result (λ h. h.words ≡ u16_at bytes.now 2) }
        ensures accepted { IfOk result (λ _. header_fault bytes.now ≡ None) }
        ensures fault { IfErr result (λ fault. header_fault bytes.now ≡ Some fault) }
    {
        if bytes[0] >> 4 != 1 {
            return Err(WireFault::Version { place: 0 });
        }
        let words = BigEndian::read_u16(&bytes[2..]);
        if words < 6 {
            return Err(WireFault::ShortLength { place: 2 });
        }
        Ok(Header {
            kind: bytes[1],
            words,
            source: BigEndian::read_u32(&bytes[4..]),
            dest: BigEndian::read_u32(&bytes[8..]),
            corr: BigEndian::read_u64(&bytes[12..]),
            flags: Flags::from_word(BigEndian::read_u32(&bytes[20..])),
        })
    }

    /// Puts the canonical header, whose reserved bits are zero.
    pub fn put(&self, into: &mut [u8; 24])
        ensures { into.new ≡ header_bytes self.now }
    {
        let words = self.words.to_be_bytes();
        let source = self.source.to_be_bytes();
        let dest = self.dest.to_be_bytes();
        let corr = self.corr.to_be_bytes();
        let flags = self.flags.word().to_be_bytes();
        *into = [
            0x10, self.kind, words[0], words[1], source[0], source[1], source[2], source[3],
            dest[0], dest[1], dest[2], dest[3], corr[0], corr[1], corr[2], corr[3], corr[4],
            corr[5], corr[6], corr[7], flags[0], flags[1], flags[2], flags[3],
        ];
    }
}
