// Values that an element tells itself.
ghost use Rattle.std.specs.Prelude.{◌≡◌, ◌==◌, ◌&&◌, ℕ, Option, is_some, IfOk};
ghost use Rattle.fc_types.specs.BuiltIn.{is_live};
ghost use Rattle.fc_value.specs.declared.value.Value.{Value as Valued};

use crate::Value;
use fc_base::Memory;

/// Tells the values of the live components, which belong to no configuration. Each class that has any has the one
/// instance 1.
pub trait Live {
    ghost told: { Self → ℕ → ℕ → ℕ → Option Valued };

    /// The value of a component of an instance, or none exactly where that is not a live one.
    fn component(&self, class: u32, instance: u32, ident: u32) -> Result<Option<Value>, Memory>
        ensures value { IfOk result (λ v. v ≡ told self.now class instance ident) }
        ensures live { IfOk result (λ v. is_some v ≡ (is_live class ident && (instance == 1))) };
}
