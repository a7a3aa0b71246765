// How long a full form can become.
ghost use Rattle.std.specs.Prelude.{◌≡◌, ◌<◌, min, sum, map};
ghost use Rattle.fc_types.specs.Types as spec;
ghost use Rattle.fc_types.specs.Types.{full_size, full_size_at};

use crate::{Field, Ty};
use fc_base::List;

/// The greatest length of the value of a TLV, in bytes.
const VALUE_LIMIT: u64 = 65_531;

/// Sizes are counted up to this one, which no full form of a TLV reaches.
const SIZE_CAP: u64 = 1 << 20;

/// Whether a type is no array, or an array whose full form, with all its entries, fits the value of a TLV.
pub fn fits_inside(ty: &Ty) -> bool
    ensures { result ≡ spec.fits_inside ty.now }
{
    match ty {
        Ty::Array { entry, entries, .. } => {
            u64::from(*entries) * (4 + full_size_capped(entry.get())) <= VALUE_LIMIT
        }
        _ => true,
    }
}

// The length of the longest full form inside a struct or an entry, or the cap where it passes that.
#[cycle(size)]
fn full_size_capped(ty: &Ty) -> u64
    ensures { result ≡ min 1048576 (full_size ty.now) }
{
    match ty {
        Ty::Bool => 1,
        Ty::Number { bytes, .. } => u64::from(*bytes),
        Ty::String { length } | Ty::Octets { length } => padded(4 + u64::from(*length)).min(
            SIZE_CAP,
        ),
        Ty::Bytes { length } => u64::from(*length).min(SIZE_CAP),
        Ty::Struct { fields } => fields_size_capped(fields),
        Ty::Array { entry, entries, .. } => {
            let entry = full_size_capped(entry.get());
            padded(4 + u64::from(*entries) * (4 + entry)).min(SIZE_CAP)
        }
    }
}

#[cycle(size)]
fn fields_size_capped(fields: &List<Field>) -> u64
    ensures { result ≡ min 1048576 (sum (map full_size_at fields.now)) }
{
    let mut size: u64 = 0;
    for field in fields.as_slice() {
        size = (size + full_size_capped(&field.ty)).min(SIZE_CAP);
    }
    size
}

// The length, rounded up to a multiple of 4.
fn padded(length: u64) -> u64
    requires { length < 9223372036854775808 }
    ensures { result ≡ spec.padded length }
{
    4 * ((length + 3) / 4)
}
