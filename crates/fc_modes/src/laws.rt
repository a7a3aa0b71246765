// What holds of every list of operations in every mode.
ghost use Rattle.std.specs.Prelude.{◌≡◌, List, length};
ghost use Rattle.fc_modes.specs.Modes.{outcome, folded, accepted};
ghost use Rattle.fc_modes.specs.declared.mode.Mode.{Mode};

use crate::Runner;

/// In each mode the state is that of the operations that are done, applied to the old one; and these are exactly the
/// operations whose code says so. Each operation has one code.
pub fn done_is_what_is_kept<R: Runner>()
    ensures state { (mode : Mode) (s : R.State) (ops : List R.Op) → (outcome R.effect mode s ops).state ≡ folded R.effect s (outcome R.effect mode s ops).done }
    ensures done { (mode : Mode) (s : R.State) (ops : List R.Op) → (outcome R.effect mode s ops).done ≡ accepted (outcome R.effect mode s ops).codes ops }
    ensures codes { (mode : Mode) (s : R.State) (ops : List R.Op) → length (outcome R.effect mode s ops).codes ≡ length ops }
{}
