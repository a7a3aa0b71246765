// The rules that the tables of a plan keep.
ghost use Rattle.std.specs.Prelude.{◌≡◌, nat_eq, map, IfOk};
ghost use Rattle.std.specs.List.{list_all, list_any};
ghost use Rattle.std.specs.Str.{bytes_eq};
ghost use Rattle.fc_types.specs.Ids.{is_distinct};
ghost use Rattle.fc_library.specs.Gives.{Gives};
ghost use Rattle.fc_library.specs.declared.fault.DocumentRule.TheVariants as rules;
ghost use Rattle.fc_documents.specs.Rules as spec;

use crate::participants::are_few;
use crate::tables::{ChangeTable, TransactionTable};
use fc_base::{FeId, Memory};
use fc_library::{DocumentRule, LibFault};
use std::alloc::Global;

// The most elements of a plan.
const MOST_ELEMENTS: usize = 255;

// The most transactions of a plan.
const MOST_TRANSACTIONS: usize = 1_024;

/// Refuses what does not keep the rule.
pub fn keep(rule: DocumentRule, is_kept: bool) -> Result<(), LibFault>
    ensures { Gives result (spec.kept rule is_kept) }
{
    if is_kept {
        Ok(())
    } else {
        Err(LibFault::Rule(rule))
    }
}

/// Refuses more elements or transactions than there may be, and more changes of an element in one of them.
pub fn keep_limits(
    alloc: Global,
    elements: &[FeId],
    transactions: &[TransactionTable],
) -> Result<(), LibFault>
    ensures { Gives result (spec.kept rules.TooMany (spec.keeps_limits (record { elements = elements.now; transactions = transactions.now }))) }
{
    let is_kept = keeps_limits(alloc, elements, transactions)?;
    keep(DocumentRule::TooMany, is_kept)
}

fn keeps_limits(
    alloc: Global,
    elements: &[FeId],
    transactions: &[TransactionTable],
) -> Result<bool, Memory>
    ensures { IfOk result (λ keeps. keeps ≡ spec.keeps_limits (record { elements = elements.now; transactions = transactions.now })) }
{
    if !are_short(elements, transactions) {
        return Ok(false);
    }
    all_have_few(alloc, transactions)
}

fn are_short(elements: &[FeId], transactions: &[TransactionTable]) -> bool
    ensures { result ≡ spec.is_short (record { elements = elements.now; transactions = transactions.now }) }
{
    elements.len() <= MOST_ELEMENTS && transactions.len() <= MOST_TRANSACTIONS
}

fn all_have_few(alloc: Global, transactions: &[TransactionTable]) -> Result<bool, Memory>
    ensures { IfOk result (λ few. few ≡ list_all spec.has_few transactions.now) }
{
    for transaction in transactions {
        if !are_few(alloc, transaction.changes.as_slice())? {
            return Ok(false);
        }
    }
    Ok(true)
}

/// Refuses an element that is listed twice, and a change of one that is not listed.
pub fn keep_elements(elements: &[FeId], transactions: &[TransactionTable]) -> Result<(), LibFault>
    ensures { Gives result (spec.kept rules.Element (spec.keeps_elements (record { elements = elements.now; transactions = transactions.now }))) }
{
    keep(
        DocumentRule::Element,
        keeps_elements(elements, transactions),
    )
}

fn keeps_elements(elements: &[FeId], transactions: &[TransactionTable]) -> bool
    ensures { result ≡ spec.keeps_elements (record { elements = elements.now; transactions = transactions.now }) }
{
    are_apart(elements) && all_are_listed(elements, transactions)
}

fn are_apart(elements: &[FeId]) -> bool
    ensures { result ≡ is_distinct nat_eq elements.now }
{
    let mut rest = elements;
    while let [first, others @ ..] = rest {
        if is_listed(others, *first) {
            return false;
        }
        rest = others;
    }
    true
}

fn is_listed(elements: &[FeId], element: FeId) -> bool
    ensures { result ≡ spec.is_listed elements.now element }
{
    for other in elements {
        if element == *other {
            return true;
        }
    }
    false
}

fn all_are_listed(elements: &[FeId], transactions: &[TransactionTable]) -> bool
    ensures { result ≡ list_all (spec.keeps_to elements.now) transactions.now }
{
    for transaction in transactions {
        if !are_listed(elements, transaction.changes.as_slice()) {
            return false;
        }
    }
    true
}

fn are_listed(elements: &[FeId], changes: &[ChangeTable]) -> bool
    ensures { result ≡ spec.are_listed elements.now changes.now }
{
    for change in changes {
        if !is_listed(elements, change.element) {
            return false;
        }
    }
    true
}

/// Refuses a transaction without a name, and one with the name of another.
pub fn keep_names(transactions: &[TransactionTable]) -> Result<(), LibFault>
    ensures { Gives result (spec.kept rules.Name (spec.keeps_names transactions.now)) }
{
    keep(DocumentRule::Name, keeps_names(transactions))
}

fn keeps_names(transactions: &[TransactionTable]) -> bool
    ensures { result ≡ spec.keeps_names transactions.now }
{
    all_have_names(transactions) && differ_in_names(transactions)
}

fn all_have_names(transactions: &[TransactionTable]) -> bool
    ensures { result ≡ list_all spec.has_name transactions.now }
{
    for transaction in transactions {
        if !is_name(transaction.name.as_str().as_bytes()) {
            return false;
        }
    }
    true
}

fn is_name(name: &[u8]) -> bool
    ensures { result ≡ spec.is_name name.now }
{
    match name {
        [] => false,
        [first, rest @ ..] => is_name_byte(*first) && are_name_bytes(rest),
    }
}

fn are_name_bytes(bytes: &[u8]) -> bool
    ensures { result ≡ list_all spec.is_name_byte bytes.now }
{
    for byte in bytes {
        if !is_name_byte(*byte) {
            return false;
        }
    }
    true
}

fn is_name_byte(byte: u8) -> bool
    ensures { result ≡ spec.is_name_byte byte }
{
    byte.is_ascii_alphanumeric() || byte == b'_'
}

fn differ_in_names(transactions: &[TransactionTable]) -> bool
    ensures { result ≡ is_distinct bytes_eq (map spec.name_of transactions.now) }
{
    let mut rest = transactions;
    while let [first, others @ ..] = rest {
        if is_named(others, first.name.as_str()) {
            return false;
        }
        rest = others;
    }
    true
}

// Whether one of the transactions has the name.
fn is_named(transactions: &[TransactionTable], name: &str) -> bool
    ensures { result ≡ list_any (bytes_eq name.now) (map spec.name_of transactions.now) }
{
    for transaction in transactions {
        if name == transaction.name.as_str() {
            return true;
        }
    }
    false
}
