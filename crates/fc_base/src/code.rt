// Result codes of operations.
ghost use Rattle.std.specs.Prelude.{◌≡◌, option_map};
ghost use Rattle.fc_base.specs.Codes.{code_name};

use std::marker::Model;

/// The result code of an operation (RFC 5810, section 7.1.7); the numbers are those of this profile. Contracts see it
/// as its number.
#[derive(Clone, Copy, Debug, PartialEq, Eq)]
pub struct Code(pub u8);

impl Model for Code {
    ghost use Rattle.std.specs.Prelude.{ℕ};

    ghost Value = { ℕ };

    ghost view = { λ s. s.0 };

    ghost inverse = { λ n. record { 0 = n } };
}

impl Code {
    /// The operation was done.
    pub const SUCCESS: Code = Code(0x00);
    /// The message is for another element.
    pub const INVALID_DESTINATION_PID: Code = Code(0x04);
    /// No LFB has this class.
    pub const LFB_UNKNOWN: Code = Code(0x05);
    /// The class has no such instance.
    pub const LFB_INSTANCE_ID_NOT_FOUND: Code = Code(0x07);
    /// The path leads nowhere.
    pub const INVALID_PATH: Code = Code(0x08);
    /// The class or struct has no such component.
    pub const COMPONENT_DOES_NOT_EXIST: Code = Code(0x09);
    /// What was to be created is there.
    pub const EXISTS: Code = Code(0x0a);
    /// What is named is not there.
    pub const NOT_FOUND: Code = Code(0x0b);
    /// The component can't be written.
    pub const READ_ONLY: Code = Code(0x0c);
    /// The array has as many entries as it may have.
    pub const INVALID_ARRAY_CREATION: Code = Code(0x0d);
    /// The value is out of the range of its type.
    pub const VALUE_OUT_OF_RANGE: Code = Code(0x0e);
    /// The answer would pass a length field (this profile's own number).
    pub const CONTENTS_TOO_LONG: Code = Code(0x0f);
    /// A parameter is not valid.
    pub const INVALID_PARAMETERS: Code = Code(0x10);
    /// The flags do not allow this here.
    pub const INVALID_FLAGS: Code = Code(0x12);
    /// A TLV is not valid.
    pub const INVALID_TLV: Code = Code(0x13);
    /// The path names an event.
    pub const EVENT_ERROR: Code = Code(0x14);
    /// The operation is not supported here.
    pub const NOT_SUPPORTED: Code = Code(0x15);
    /// The operation was not done, for the sake of another.
    pub const UNSPECIFIED_ERROR: Code = Code(0xff);

    /// The name of the code in this profile, where it has one.
    pub fn name(self) -> Option<&'static str>
        ensures { option_map (λ name. name.now) result ≡ code_name self }
    {
        match self.0 {
            0x00 => Some("SUCCESS"),
            0x04 => Some("INVALID_DESTINATION_PID"),
            0x05 => Some("LFB_UNKNOWN"),
            0x07 => Some("LFB_INSTANCE_ID_NOT_FOUND"),
            0x08 => Some("INVALID_PATH"),
            0x09 => Some("COMPONENT_DOES_NOT_EXIST"),
            0x0a => Some("EXISTS"),
            0x0b => Some("NOT_FOUND"),
            0x0c => Some("READ_ONLY"),
            0x0d => Some("INVALID_ARRAY_CREATION"),
            0x0e => Some("VALUE_OUT_OF_RANGE"),
            0x0f => Some("CONTENTS_TOO_LONG"),
            0x10 => Some("INVALID_PARAMETERS"),
            0x12 => Some("INVALID_FLAGS"),
            0x13 => Some("INVALID_TLV"),
            0x14 => Some("EVENT_ERROR"),
            0x15 => Some("NOT_SUPPORTED"),
            0xff => Some("UNSPECIFIED_ERROR"),
            _ => None,
        }
    }
}
