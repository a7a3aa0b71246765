// The rules that each declared type keeps, and each type inside it, at any depth.
ghost use Rattle.std.specs.Prelude.{◌≡◌};
ghost use Rattle.std.specs.List.{list_all};
ghost use Rattle.fc_types.specs.Types as spec;
ghost use Rattle.fc_types.specs.Types.{field_ty, inside, throughout};
ghost use Rattle.fc_types.specs.TypeRules.{keeps};

use crate::size::fits_inside;
use crate::{Field, KeyDecl, Ty, are_apart, with_id};
use fc_base::List;

/// A rule of a type, apart from the types inside it.
#[derive(Clone, Copy, Debug)]
pub enum TypeRule {
    /// The fields of a struct differ in their IDs, and so do the keys of an array.
    DistinctIds,
    /// A range, a length or a number of entries is one that the type can have.
    Range,
    /// An array with all its entries fits the value of a TLV.
    Fit,
    /// A key of an array is made of different fields of the entry that are no structs or arrays.
    AtomicKeys,
}

impl TypeRule {
    fn holds(self, ty: &Ty) -> bool
        ensures { result ≡ keeps self ty.now }
    {
        match self {
            TypeRule::DistinctIds => has_distinct_ids(ty),
            TypeRule::Range => is_in_range(ty),
            TypeRule::Fit => fits_inside(ty),
            TypeRule::AtomicKeys => has_atomic_keys(ty),
        }
    }
}

/// Whether a type and each type inside it keep a rule.
#[cycle(throughout)]
pub fn holds_throughout(rule: TypeRule, ty: &Ty) -> bool
    ensures { result ≡ throughout (keeps rule) ty.now }
{
    rule.holds(ty) && holds_inside(rule, ty)
}

/// Whether each type inside a type keeps a rule.
#[cycle(throughout)]
pub fn holds_inside(rule: TypeRule, ty: &Ty) -> bool
    ensures { result ≡ inside (keeps rule) ty.now }
{
    match ty {
        Ty::Struct { fields } => holds_in_fields(rule, fields),
        Ty::Array { entry, .. } => holds_throughout(rule, entry.get()),
        _ => true,
    }
}

#[cycle(throughout)]
fn holds_in_fields(rule: TypeRule, fields: &List<Field>) -> bool
    ensures { result ≡ list_all (λ f. throughout (keeps rule) (field_ty f)) fields.now }
{
    for field in fields.as_slice() {
        if !holds_throughout(rule, &field.ty) {
            return false;
        }
    }
    true
}

// Whether the fields of a struct, or the keys of an array, have different IDs.
fn has_distinct_ids(ty: &Ty) -> bool
    ensures { result ≡ spec.has_distinct_ids ty.now }
{
    match ty {
        Ty::Struct { fields } => are_apart(fields),
        Ty::Array { keys, .. } => are_apart(keys),
        _ => true,
    }
}

// The least and the greatest number of so many bytes; none where no number has that many.
fn span(bytes: u8, signed: bool) -> Option<(i128, i128)>
    ensures { result ≡ spec.span bytes signed }
{
    match (bytes, signed) {
        (1, true) => Some((-0x80, 0x7F)),
        (1, false) => Some((0, 0xFF)),
        (2, true) => Some((-0x8000, 0x7FFF)),
        (2, false) => Some((0, 0xFFFF)),
        (4, true) => Some((-0x8000_0000, 0x7FFF_FFFF)),
        (4, false) => Some((0, 0xFFFF_FFFF)),
        (8, true) => Some((-0x8000_0000_0000_0000, 0x7FFF_FFFF_FFFF_FFFF)),
        (8, false) => Some((0, 0xFFFF_FFFF_FFFF_FFFF)),
        _ => None,
    }
}

// Whether the range, the length or the number of entries is one that the type can have.
fn is_in_range(ty: &Ty) -> bool
    ensures { result ≡ spec.is_in_range ty.now }
{
    match ty {
        Ty::Number {
            bytes,
            signed,
            min,
            max,
        } => match span(*bytes, *signed) {
            Some((least, greatest)) => least <= *min && *min <= *max && *max <= greatest,
            None => false,
        },
        Ty::String { length } | Ty::Octets { length } | Ty::Bytes { length } => {
            1 <= *length && *length <= LENGTH_LIMIT
        }
        Ty::Array { entries, .. } => 1 <= *entries && *entries <= ENTRIES_LIMIT,
        Ty::Bool | Ty::Struct { .. } => true,
    }
}

/// The greatest length of a text, of octets or of bytes, in bytes.
const LENGTH_LIMIT: u32 = 32_768;

/// The greatest number of entries of an array.
const ENTRIES_LIMIT: u32 = 65_536;

/// Whether a type is neither a struct nor an array.
pub fn is_atom(ty: &Ty) -> bool
    ensures { result ≡ spec.is_atom ty.now }
{
    match ty {
        Ty::Struct { .. } | Ty::Array { .. } => false,
        _ => true,
    }
}

// Whether each key of an array is made of different fields of the entry that are no structs or arrays.
fn has_atomic_keys(ty: &Ty) -> bool
    ensures { result ≡ spec.has_atomic_keys ty.now }
{
    match ty {
        Ty::Array { entry, keys, .. } => are_keys(entry.get(), keys.as_slice()),
        _ => true,
    }
}

fn are_keys(entry: &Ty, keys: &[KeyDecl]) -> bool
    ensures { result ≡ list_all (spec.is_key (spec.fields_of entry.now)) keys.now }
{
    let fields = fields_of(entry);
    for key in keys {
        if !is_key(fields, key) {
            return false;
        }
    }
    true
}

/// The fields of a struct, and none of another type.
pub fn fields_of(ty: &Ty) -> &[Field]
    ensures { result.now ≡ spec.fields_of ty.now }
{
    match ty {
        Ty::Struct { fields } => fields.as_slice(),
        _ => &[],
    }
}

// A key with more fields than the struct has one twice, or one that the struct has not.
fn is_key(fields: &[Field], key: &KeyDecl) -> bool
    ensures { result ≡ spec.is_key fields.now key.now }
{
    let ids = key.fields.as_slice();
    if ids.len() > fields.len() {
        return false;
    }
    !ids.is_empty() && are_apart(&key.fields) && are_atoms(fields, ids)
}

// Whether each ID is that of a field whose type is neither a struct nor an array.
fn are_atoms(fields: &[Field], ids: &[u32]) -> bool
    ensures { result ≡ list_all (spec.names_atom fields.now) ids.now }
{
    for id in ids {
        match with_id(fields, *id) {
            Some(field) if is_atom(&field.ty) => {}
            _ => return false,
        }
    }
    true
}
