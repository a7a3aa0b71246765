// What the definitions of a step say.
ghost use Rattle.std.specs.Prelude.{◌≡◌, ◌↔◌, ℕ, List, Some};
ghost use Rattle.fc_steps.specs.Steps.{CanSay, step_of, text_of};
ghost use Rattle.fc_steps.specs.declared.step.StepText.{StepText};

/// A text says a step exactly where it is what is written for it.
pub fn texts_say_what_is_written()
    ensures read { (text : List ℕ) (s : StepText) → step_of text ≡ Some s → CanSay s × (text ≡ text_of s) }
    ensures written { (s : StepText) → CanSay s → step_of (text_of s) ≡ Some s }
{}
