// What a table of a document has at its keys.
ghost use Rattle.std.specs.Prelude.{◌≡◌, ◌≤◌, ◌++◌, map, IfOk, option_map};
ghost use Rattle.toml.specs.Data.{get_member};
ghost use Rattle.toml.specs.View.{view, table_view, items_view};
ghost use Rattle.fc_library.specs.Keys as spec;
ghost use Rattle.fc_library.specs.Gives.{Gives, GivesBy};

use crate::fault::{LibFault, missing, unknown, wrong_kind};
use fc_base::{List, Text};
use std::alloc::Global;
use toml::{Table, Value};

/// The value at a key.
pub fn find<'a>(table: &'a Table, key: &str) -> Option<&'a Value>
    ensures { option_map (λ v. view v.now) result ≡ get_member key.now (table_view table.now) }
{
    table.get(key)
}

/// That each key of the table is one of its own or one of some more.
pub fn only(alloc: Global, table: &Table, own: &[&str], more: &[&str]) -> Result<(), LibFault>
    ensures { Gives result (spec.only (map (λ key. key.now) own.now ++ map (λ key. key.now) more.now) (table_view table.now)) }
{
    'members: for (name, _) in table.iter() {
        if !is_known(name.as_str(), own, more) {
            return Err(unknown(alloc, name.as_str()));
        }
    }
    Ok(())
}

#[tactic(auto, using(crate::proofs::Chain::among_either))]
fn is_known(name: &str, own: &[&str], more: &[&str]) -> bool
    ensures { result ≡ spec.is_among name.now (map (λ key. key.now) own.now ++ map (λ key. key.now) more.now) }
{
    is_among(name, own) || is_among(name, more)
}

fn is_among(name: &str, known: &[&str]) -> bool
    ensures { result ≡ spec.is_among name.now (map (λ key. key.now) known.now) }
{
    'keys: for key in known {
        if name == *key {
            return true;
        }
    }
    false
}

/// The number at a key that has to be there, from `least` to `most`.
pub fn number_at(
    alloc: Global,
    table: &Table,
    key: &str,
    least: u32,
    most: u32,
) -> Result<u32, LibFault>
    ensures exact { Gives result (spec.number_at key.now least most (table_view table.now)) }
    ensures range { IfOk result (λ n. (least ≤ n) × (n ≤ most)) }
{
    match find(table, key) {
        Some(value) => number(alloc, value, key, least, most),
        None => Err(missing(alloc, key)),
    }
}

/// The number at a key, from 0 to `most`, or a default.
pub(crate) fn number_or(
    alloc: Global,
    table: &Table,
    key: &str,
    default: u32,
    most: u32,
) -> Result<u32, LibFault>
    requires { default ≤ most }
    ensures exact { Gives result (spec.number_or default key.now most (table_view table.now)) }
    ensures range { IfOk result (λ n. n ≤ most) }
{
    match find(table, key) {
        Some(value) => number(alloc, value, key, 0, most),
        None => Ok(default),
    }
}

// A number from `least` to `most`.
fn number(alloc: Global, value: &Value, key: &str, least: u32, most: u32) -> Result<u32, LibFault>
    ensures exact { Gives result (spec.number key.now least most (view value.now)) }
    ensures range { IfOk result (λ n. (least ≤ n) × (n ≤ most)) }
{
    match value {
        Value::Integer(z) => match u32::try_from(*z) {
            Ok(n) if least <= n && n <= most => Ok(n),
            _ => Err(wrong_kind(alloc, key)),
        },
        _ => Err(wrong_kind(alloc, key)),
    }
}

/// The whole number at a key, or a default.
pub(crate) fn integer_or(
    alloc: Global,
    table: &Table,
    key: &str,
    default: i128,
) -> Result<i128, LibFault>
    ensures { Gives result (spec.integer_or default key.now (table_view table.now)) }
{
    match find(table, key) {
        Some(Value::Integer(z)) => Ok(i128::from(*z)),
        Some(_) => Err(wrong_kind(alloc, key)),
        None => Ok(default),
    }
}

/// The text at a key that has to be there.
pub fn text_at(alloc: Global, table: &Table, key: &str) -> Result<Text, LibFault>
    ensures { Gives result (spec.text_at key.now (table_view table.now)) }
{
    match find(table, key) {
        Some(Value::String(text)) => Ok(Text::from_str(alloc, text.as_str())?),
        Some(_) => Err(wrong_kind(alloc, key)),
        None => Err(missing(alloc, key)),
    }
}

/// The truth value at a key, or a default.
pub fn truth_or(alloc: Global, table: &Table, key: &str, default: bool) -> Result<bool, LibFault>
    ensures { Gives result (spec.truth_or default key.now (table_view table.now)) }
{
    match find(table, key) {
        Some(Value::Boolean(truth)) => Ok(*truth),
        Some(_) => Err(wrong_kind(alloc, key)),
        None => Ok(default),
    }
}

/// The array of tables at a key, or none of them.
pub fn tables_or_none<'a>(
    alloc: Global,
    table: &'a Table,
    key: &str,
) -> Result<&'a [Value], LibFault>
    ensures { GivesBy (λ values. items_view values.now) result (spec.tables_or_none key.now (table_view table.now)) }
{
    match find(table, key) {
        Some(Value::Array(values)) => {
            if are_tables(values) {
                Ok(values.as_slice())
            } else {
                Err(wrong_kind(alloc, key))
            }
        }
        Some(_) => Err(wrong_kind(alloc, key)),
        None => Ok(&[]),
    }
}

/// The array of tables at a key that has to be there.
pub fn tables_at<'a>(alloc: Global, table: &'a Table, key: &str) -> Result<&'a [Value], LibFault>
    ensures { GivesBy (λ values. items_view values.now) result (spec.tables_at key.now (table_view table.now)) }
{
    match find(table, key) {
        Some(Value::Array(values)) => {
            if are_tables(values) {
                Ok(values.as_slice())
            } else {
                Err(wrong_kind(alloc, key))
            }
        }
        Some(_) => Err(wrong_kind(alloc, key)),
        None => Err(missing(alloc, key)),
    }
}

fn are_tables(values: &[Value]) -> bool
    ensures { result ≡ spec.are_tables (items_view values.now) }
{
    'values: for value in values {
        match value {
            Value::Table(_) => {}
            _ => return false,
        }
    }
    true
}

/// The table at a key that has to be there.
pub(crate) fn table_at<'a>(
    alloc: Global,
    table: &'a Table,
    key: &str,
) -> Result<&'a Table, LibFault>
    ensures { GivesBy (λ inside. table_view inside.now) result (spec.table_at key.now (table_view table.now)) }
{
    match find(table, key) {
        Some(value) => match value.as_table() {
            Some(inside) => Ok(inside),
            None => Err(wrong_kind(alloc, key)),
        },
        None => Err(missing(alloc, key)),
    }
}

/// The array of numbers, of 32 bits each, at a key that has to be there.
pub(crate) fn numbers_at(alloc: Global, table: &Table, key: &str) -> Result<List<u32>, LibFault>
    ensures { Gives result (spec.numbers_at key.now (table_view table.now)) }
{
    match find(table, key) {
        Some(Value::Array(values)) => numbers(alloc, values, key),
        Some(_) => Err(wrong_kind(alloc, key)),
        None => Err(missing(alloc, key)),
    }
}

fn numbers(alloc: Global, values: &[Value], key: &str) -> Result<List<u32>, LibFault>
    ensures { Gives result (spec.numbers_in key.now (items_view values.now)) }
{
    let mut numbers = List::new(alloc);
    'values: for value in values {
        numbers.push(number(alloc, value, key, 0, u32::MAX)?)?;
    }
    Ok(numbers)
}

/// The array of texts at a key that has to be there.
pub fn texts_at(alloc: Global, table: &Table, key: &str) -> Result<List<Text>, LibFault>
    ensures { Gives result (spec.texts_at key.now (table_view table.now)) }
{
    match find(table, key) {
        Some(Value::Array(values)) => texts(alloc, values, key),
        Some(_) => Err(wrong_kind(alloc, key)),
        None => Err(missing(alloc, key)),
    }
}

fn texts(alloc: Global, values: &[Value], key: &str) -> Result<List<Text>, LibFault>
    ensures { Gives result (spec.texts_in key.now (items_view values.now)) }
{
    let mut texts = List::new(alloc);
    'values: for value in values {
        texts.push(text(alloc, value, key)?)?;
    }
    Ok(texts)
}

fn text(alloc: Global, value: &Value, key: &str) -> Result<Text, LibFault>
    ensures { Gives result (spec.text key.now (view value.now)) }
{
    match value {
        Value::String(text) => Ok(Text::from_str(alloc, text.as_str())?),
        _ => Err(wrong_kind(alloc, key)),
    }
}
