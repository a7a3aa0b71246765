// The identifiers of elements, controllers, epochs and transactions, which contracts see as numbers.
ghost use Rattle.std.specs.Prelude.{◌≡◌, ◌+◌, ◌*◌, ◌/◌, ◌%◌, ◌<◌, ◌^◌, IfSome, IfNone};
ghost use Rattle.fc_base.specs.Ids.{IsFe, IsCe, IsEpoch, IsRound};

use std::fmt;
use std::marker::Model;

/// The ID of a forwarding element: not 0, and its top two bits are 00 (RFC 5810, section 6.1).
#[derive(Clone, Copy, Debug, PartialEq, Eq, PartialOrd, Ord)]
pub struct FeId {
    id: u32,
}

impl Model for FeId {
    ghost use Rattle.std.specs.Prelude.{ℕ};

    ghost Value = { ℕ };

    ghost use Rattle.fc_base.specs.Ids.{IsFe};

    ghost view = { λ s. s.id };

    ghost invariant = { λ s. IsFe s.id };

    ghost inverse = { λ n. record { id = n } };
}

impl FeId {
    /// The ID with this number; none where the number is 0 or its top two bits are not 00.
    pub fn of(n: u32) -> Option<FeId>
        ensures some { IfSome result (λ id. id ≡ n) }
        ensures valid { IfSome result (λ _. IsFe n) }
        ensures none { IfNone result (IsFe n → ⊥) }
    {
        if n == 0 || n >> 30 != 0 {
            return None;
        }
        Some(FeId { id: n })
    }

    /// The number of the ID.
    pub fn get(self) -> u32
        ensures same { result ≡ self }
        ensures valid { IsFe result }
    {
        self.id
    }
}

/// The ID of a control element: its top two bits are 01, and its low 8 bits, which are this profile's number of the
/// controller, are not 0 (RFC 5810, section 6.1).
#[derive(Clone, Copy, Debug, PartialEq, Eq, PartialOrd, Ord)]
pub struct CeId {
    id: u32,
}

impl Model for CeId {
    ghost use Rattle.std.specs.Prelude.{ℕ};

    ghost Value = { ℕ };

    ghost use Rattle.fc_base.specs.Ids.{IsCe};

    ghost view = { λ s. s.id };

    ghost invariant = { λ s. IsCe s.id };

    ghost inverse = { λ n. record { id = n } };
}

impl CeId {
    /// The ID with this number; none where the top two bits are not 01 or the low 8 bits are 0.
    pub fn of(n: u32) -> Option<CeId>
        ensures some { IfSome result (λ id. id ≡ n) }
        ensures valid { IfSome result (λ _. IsCe n) }
        ensures none { IfNone result (IsCe n → ⊥) }
    {
        if n >> 30 != 1 || n % 256 == 0 {
            return None;
        }
        Some(CeId { id: n })
    }

    /// The number of the ID, of 32 bits.
    pub fn get(self) -> u32
        ensures same { result ≡ self }
        ensures valid { IsCe result }
    {
        self.id
    }

    /// The controller's own number, from 1 to 255: the low 8 bits of the ID.
    pub fn number(self) -> u8
        ensures same { result ≡ self % 256 }
        ensures some { 0 < result }
    {
        (self.id % 256) as u8
    }
}

/// One life of one controller (this profile's own): a round from 1 to 16,777,215, and in the low 8 bits the
/// controller's number. Later rounds have greater epochs.
#[derive(Clone, Copy, Debug, PartialEq, Eq, PartialOrd, Ord, Hash)]
pub struct Epoch {
    word: u32,
}

impl Model for Epoch {
    ghost use Rattle.std.specs.Prelude.{ℕ};

    ghost Value = { ℕ };

    ghost use Rattle.fc_base.specs.Ids.{IsEpoch};

    ghost view = { λ s. s.word };

    ghost invariant = { λ s. IsEpoch s.word };

    ghost inverse = { λ n. record { word = n } };
}

impl Epoch {
    /// The epoch of a controller's round; none where the round is 0 or at least 16,777,216.
    pub fn of(round: u32, ce: CeId) -> Option<Epoch>
        ensures some { IfSome result (λ epoch. epoch ≡ round * 256 + ce % 256) }
        ensures valid { IfSome result (λ epoch. IsRound round × IsEpoch epoch) }
        ensures none { IfNone result (IsRound round → ⊥) }
    {
        if round == 0 || round >= 16_777_216 {
            return None;
        }
        Some(Epoch {
            word: round * 256 + u32::from(ce.number()),
        })
    }

    /// The epoch of a word; none where the round or the controller's number in it is 0.
    pub fn from_word(word: u32) -> Option<Epoch>
        ensures some { IfSome result (λ epoch. epoch ≡ word) }
        ensures valid { IfSome result (λ _. IsEpoch word) }
        ensures none { IfNone result (IsEpoch word → ⊥) }
    {
        if word / 256 == 0 || word % 256 == 0 {
            return None;
        }
        Some(Epoch { word })
    }

    /// The word of the epoch.
    pub fn get(self) -> u32
        ensures same { result ≡ self }
        ensures valid { IsEpoch result }
    {
        self.word
    }
}

/// A transaction (this profile's own): the life that made it, and its number within that life, from 1. It prints as the word
/// of the life and the number, both in decimal, with a full stop between them, as `257.1`.
#[derive(Clone, Copy, Debug, PartialEq, Eq, PartialOrd, Ord, Hash)]
pub struct TxnId {
    pub epoch: Epoch,
    pub number: u32,
}

impl Model for TxnId {
    ghost use Rattle.fc_base.specs.Ids.{Txn};

    ghost Value = { Txn };

    ghost use Rattle.std.specs.Prelude.{◌<◌};

    ghost view = { λ s. record { epoch = s.epoch; number = s.number } };

    ghost invariant = { λ s. 0 < s.number };

    ghost inverse = { λ x. record { epoch = x.epoch; number = x.number } };
}

impl TxnId {
    /// The transaction of a life with this number; none where the number is 0.
    pub fn of(epoch: Epoch, number: u32) -> Option<TxnId>
        ensures some { IfSome result (λ x. x ≡ record { epoch = epoch; number = number }) }
        ensures valid { IfSome result (λ _. 0 < number) }
        ensures none { IfNone result (number ≡ 0) }
    {
        if number == 0 {
            return None;
        }
        Some(TxnId { epoch, number })
    }
}

impl fmt::Display for TxnId {
    ghost use Rattle.std.specs.Prelude.{Some};
    ghost use Rattle.fc_base.specs.Ids.{txn_text};

    ghost output = { λ txn. Some (txn_text txn) };

    fn fmt<W: fmt::Write>(&self, f: &mut fmt::Formatter<W>) -> Result<(), fmt::Error> {
        let epoch = self.epoch.get();
        let number = self.number;
        write!(f, "{epoch}.{number}")
    }
}
