// The classes that each element has of itself, by their IDs.
ghost use Rattle.std.specs.Prelude.{◌≡◌};
ghost use Rattle.fc_types.specs.BuiltIn as spec;

/// The ID of the class FE Object (RFC 5812, section 5).
pub const FE_OBJECT: u32 = 1;

/// The ID of the class FE Protocol (RFC 5810, appendix B).
pub const FE_PROTOCOL: u32 = 2;

/// The ID of the class Mastership, which is this profile's own.
pub const MASTERSHIP: u32 = 0x0001_F001;

/// Whether a class with the ID is one that each element has of itself.
pub fn is_built_in(class: u32) -> bool
    ensures { result ≡ spec.is_built_in class }
{
    class == FE_OBJECT || class == FE_PROTOCOL || class == MASTERSHIP
}

/// Whether a component of a class is a live one: the element itself tells its value, which stands in no configuration
/// (this profile's own).
pub fn is_live(class: u32, ident: u32) -> bool
    ensures { result ≡ spec.is_live class ident }
{
    match class {
        FE_OBJECT => matches!(ident, 1 | 2 | 4 | 5 | 6 | 8),
        FE_PROTOCOL => matches!(ident, 1 | 2 | 3 | 8 | 13),
        MASTERSHIP => matches!(ident, 1 | 2 | 3 | 7),
        _ => false,
    }
}
