// The words of a document that name a type or say when an event happens.
ghost use Rattle.std.specs.Prelude.{◌≡◌, map};
ghost use Rattle.toml.specs.View.{table_view};
ghost use Rattle.fc_library.specs.Gives.{Gives};
ghost use Rattle.fc_library.specs.Names as spec;

use crate::fault::{LibFault, missing, wrong_kind};
use crate::keys::find;
use fc_types::When;
use std::alloc::Global;
use toml::{Table, Value};

/// A type of numbers.
#[derive(Clone, Copy, Debug)]
pub enum NumberName {
    U8,
    U16,
    U32,
    U64,
    I8,
    I16,
    I32,
    I64,
}

impl NumberName {
    /// How many bytes a number has.
    pub(crate) fn width(self) -> u8
        ensures { result ≡ spec.width self }
    {
        match self {
            NumberName::U8 | NumberName::I8 => 1,
            NumberName::U16 | NumberName::I16 => 2,
            NumberName::U32 | NumberName::I32 => 4,
            NumberName::U64 | NumberName::I64 => 8,
        }
    }

    /// Whether a number may be below 0.
    pub(crate) fn is_signed(self) -> bool
        ensures { result ≡ spec.is_signed self }
    {
        match self {
            NumberName::U8 | NumberName::U16 | NumberName::U32 | NumberName::U64 => false,
            NumberName::I8 | NumberName::I16 | NumberName::I32 | NumberName::I64 => true,
        }
    }

    /// The least number.
    pub(crate) fn least(self) -> i128
        ensures { result ≡ spec.least self }
    {
        match self {
            NumberName::U8 | NumberName::U16 | NumberName::U32 | NumberName::U64 => 0,
            NumberName::I8 => -128,
            NumberName::I16 => -32_768,
            NumberName::I32 => -2_147_483_648,
            NumberName::I64 => -9_223_372_036_854_775_808,
        }
    }

    /// The greatest number.
    pub(crate) fn greatest(self) -> i128
        ensures { result ≡ spec.greatest self }
    {
        match self {
            NumberName::U8 => 255,
            NumberName::U16 => 65_535,
            NumberName::U32 => 4_294_967_295,
            NumberName::U64 => 18_446_744_073_709_551_615,
            NumberName::I8 => 127,
            NumberName::I16 => 32_767,
            NumberName::I32 => 2_147_483_647,
            NumberName::I64 => 9_223_372_036_854_775_807,
        }
    }
}

/// What a word at the key `type` names.
#[derive(Clone, Copy, Debug)]
pub enum TypeName {
    Bool,
    Number(NumberName),
    String,
    Octets,
    Bytes,
    Struct,
    Array,
}

fn number_word(word: &str) -> Option<NumberName>
    ensures { result ≡ spec.number_word word.now }
{
    if word == "u8" {
        Some(NumberName::U8)
    } else if word == "u16" {
        Some(NumberName::U16)
    } else if word == "u32" {
        Some(NumberName::U32)
    } else if word == "u64" {
        Some(NumberName::U64)
    } else if word == "i8" {
        Some(NumberName::I8)
    } else if word == "i16" {
        Some(NumberName::I16)
    } else if word == "i32" {
        Some(NumberName::I32)
    } else if word == "i64" {
        Some(NumberName::I64)
    } else {
        None
    }
}

fn type_word(word: &str) -> Option<TypeName>
    ensures { result ≡ spec.type_word word.now }
{
    if word == "bool" {
        Some(TypeName::Bool)
    } else if word == "string" {
        Some(TypeName::String)
    } else if word == "octets" {
        Some(TypeName::Octets)
    } else if word == "bytes" {
        Some(TypeName::Bytes)
    } else if word == "struct" {
        Some(TypeName::Struct)
    } else if word == "array" {
        Some(TypeName::Array)
    } else {
        match number_word(word) {
            Some(number) => Some(TypeName::Number(number)),
            None => None,
        }
    }
}

/// The type that a table names, if it names one.
pub(crate) fn named(table: &Table) -> Option<TypeName>
    ensures { result ≡ spec.named (table_view table.now) }
{
    match find(table, "type") {
        Some(Value::String(word)) => type_word(word.as_str()),
        _ => None,
    }
}

/// The type that a table has to name.
pub(crate) fn type_at(alloc: Global, table: &Table) -> Result<TypeName, LibFault>
    ensures { Gives result (spec.type_at (table_view table.now)) }
{
    match find(table, "type") {
        None => Err(missing(alloc, "type")),
        Some(_) => named(table).ok_or(wrong_kind(alloc, "type")),
    }
}

/// The keys that belong to a type, or to any where none is named.
pub(crate) fn type_keys(name: Option<TypeName>) -> &'static [&'static str]
    ensures { map (λ key. key.now) result.now ≡ spec.type_keys name }
{
    match name {
        Some(TypeName::Bool) => &[],
        Some(TypeName::Number(_)) => &["min", "max"],
        Some(TypeName::String | TypeName::Octets | TypeName::Bytes) => &["length"],
        Some(TypeName::Struct) => &["fields"],
        Some(TypeName::Array) => &["entry", "entries", "keys"],
        None => &["min", "max", "length", "fields", "entry", "entries", "keys"],
    }
}

fn when_word(word: &str) -> Option<When>
    ensures { result ≡ spec.when_word word.now }
{
    if word == "changed" {
        Some(When::Changed)
    } else if word == "created" {
        Some(When::Created)
    } else if word == "deleted" {
        Some(When::Deleted)
    } else if word == "greater" {
        Some(When::Greater)
    } else if word == "less" {
        Some(When::Less)
    } else {
        None
    }
}

/// When the event of a table happens, which it has to say.
pub(crate) fn when_at(alloc: Global, table: &Table) -> Result<When, LibFault>
    ensures { Gives result (spec.when_at (table_view table.now)) }
{
    match find(table, "when") {
        Some(Value::String(word)) => when_word(word.as_str()).ok_or(wrong_kind(alloc, "when")),
        Some(_) => Err(wrong_kind(alloc, "when")),
        None => Err(missing(alloc, "when")),
    }
}
