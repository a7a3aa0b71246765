// The types of values.
ghost use Rattle.std.specs.Prelude.{◌≡◌};

use crate::Identified;
use fc_base::{Boxed, List, Text};

/// A key of an array: its entries are told apart by these fields of the entry (RFC 5812, section 4.5.3).
#[derive(Debug, Drop)]
pub struct KeyDecl {
    /// The number of the key, of 32 bits.
    pub id: u32,
    /// The IDs of fields of the array's entry, in the order in which a value of the key has them.
    pub fields: List<u32>,
}

impl Identified for KeyDecl {
    ghost id_of = { λ key. key.id };

    fn id(&self) -> u32 {
        self.id
    }
}

/// A field of a struct.
#[cycle(ty)]
#[derive(Debug, Drop)]
pub struct Field {
    /// The number of the field, of 32 bits.
    pub id: u32,
    pub name: Text,
    pub ty: Ty,
}

impl Identified for Field {
    ghost use Rattle.fc_types.specs.Types.{field_id};

    ghost id_of = { field_id };

    fn id(&self) -> u32 {
        self.id
    }
}

/// What the values of a component, of a field or of an array's entry are (RFC 5812, section 4.5).
#[cycle(ty)]
#[derive(Debug, Drop)]
pub enum Ty {
    /// A truth value, of one byte.
    Bool,
    /// A number from `min` to `max`, both among them, of 1, 2, 4 or 8 bytes.
    Number {
        bytes: u8,
        signed: bool,
        min: i128,
        max: i128,
    },
    /// A text in UTF-8 of at most so many bytes, from 1 to 32,768.
    String {
        length: u32,
    },
    /// At most so many bytes, from 1 to 32,768.
    Octets {
        length: u32,
    },
    /// Exactly so many bytes, from 1 to 32,768.
    Bytes {
        length: u32,
    },
    /// One value of each field, in the order of the fields.
    Struct {
        fields: List<Field>,
    },
    /// At most so many entries, from 1 to 65,536, each one at a subscript of 32 bits.
    Array {
        entry: Boxed<Ty>,
        entries: u32,
        keys: List<KeyDecl>,
    },
}
