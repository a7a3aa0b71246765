// A node that is lent: a value, or the entries of an array that is a component.
ghost use Rattle.std.specs.Prelude.{◌≡◌, ◌++◌, IfOk, IfSome, OnOk, OnErr};
ghost use Rattle.std.specs.FinMap as map;
ghost use Rattle.fc_tree.specs.Finding as finding;
ghost use Rattle.fc_value.specs.Writing.{full_bytes};
ghost use Rattle.fc_value.specs.declared.value.Value.TheVariants as tables;

use fc_base::{Duplicate, Memory};
use fc_rows::Rows;
use fc_types::Ty;
use fc_value::{Value, write_full, write_full_entries};
use std::alloc::Global;
use std::marker::Model;

#[derive(Debug, Drop)]
enum Lent<'a> {
    One(&'a Value),
    Entries(&'a Rows),
}

/// A node of a configuration, which contracts see as its value.
#[derive(Debug, Drop)]
pub struct Node<'a> {
    lent: Lent<'a>,
}

impl<'a> Model for Node<'a> {
    ghost use Rattle.fc_value.specs.declared.value.Value.{Value as Valued};
    ghost use Rattle.fc_value.specs.contracts.value.Value as contracts;
    ghost use Rattle.fc_instance.specs.Lent.{lent_value};

    ghost Value = { Valued };

    ghost coded = { contracts.the_row.coded };

    ghost view = { λ n. lent_value n.lent };
}

impl<'a> Node<'a> {
    // A value that is lent.
    pub(crate) fn one(value: &'a Value) -> Node<'a>
        ensures { result ≡ value.now }
    {
        Node {
            lent: Lent::One(value),
        }
    }

    // The entries of an array that is a component.
    pub(crate) fn of_rows(rows: &'a Rows) -> Node<'a>
        ensures { result ≡ tables.Table (map.entries rows.now.0) }
    {
        Node {
            lent: Lent::Entries(rows),
        }
    }

    /// The value, where one lies behind the node; none where the entries of an array do.
    pub fn value(&self) -> Option<&Value>
        ensures { IfSome result (λ value. value.now ≡ self.now) }
    {
        match &self.lent {
            Lent::One(value) => Some(value),
            Lent::Entries(_) => None,
        }
    }

    /// The entries of an array, by rising subscript; none of another value.
    pub fn entries(&self) -> &[(u32, Value)]
        ensures { result.now ≡ finding.entries_of self.now }
    {
        match &self.lent {
            Lent::One(value) => match value {
                Value::Table(entries) => entries.as_slice(),
                _ => &[],
            },
            Lent::Entries(rows) => rows.as_slice(),
        }
    }

    /// A copy of the value.
    pub fn copy(&self, alloc: Global) -> Result<Value, Memory>
        ensures { IfOk result (λ value. value ≡ self.now) }
    {
        match &self.lent {
            Lent::One(value) => value.copy(),
            Lent::Entries(rows) => Ok(Value::Table(rows.to_list(alloc)?)),
        }
    }

    /// Appends the full form of the value, which fits the type. After an `Err` nothing has changed.
    pub fn write_full(&self, ty: &Ty, into: &mut Vec<u8>) -> Result<(), Memory>
        ensures ok { OnOk result (into.new.items ≡ into.old.items ++ full_bytes ty.now self.now) }
        ensures err { OnErr result (into.new.items ≡ into.old.items) }
    {
        match &self.lent {
            Lent::One(value) => write_full(ty, value, into),
            Lent::Entries(rows) => write_full_entries(ty, rows.as_slice(), into),
        }
    }
}
