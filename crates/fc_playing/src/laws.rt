// Laws of how `world` ends.
ghost use Rattle.std.specs.Prelude.{◌≡◌, ◌↔◌, ℕ, List, Option, Some, Ok, Err};
ghost use Rattle.fc_base.specs.Causes.{Rose};
ghost use Rattle.fc_documents.specs.declared.transaction.PlanTxn.{PlanTxn};
ghost use Rattle.fc_playing.specs.Outcomes.{CameTo, IsOutcome, outcome_of};
ghost use Rattle.fc_playing.specs.Playing.{AreMade, IsFirstFault, played};
ghost use Rattle.fc_playing.specs.WorldRun.{PlayEnds};
ghost use Rattle.fc_playing.specs.declared.end.PlayEnd.{PlayEnd};
ghost use Rattle.fc_playing.specs.declared.playing.StepFault.{StepFault};
ghost use Rattle.fc_steps.specs.declared.step.Step.{Step};
ghost use Rattle.fc_world.specs.Worlds.{WorldState};

/// Steps are played to a world exactly where each of them can be made where its turn comes, and then to the world after all of them; and to a
/// fault exactly where that is the fault of the first that can't be made where its turn comes.
pub fn steps_are_played()
    ensures made { (ts : List PlanTxn) (w new : WorldState) (steps : List (ℕ × Step)) → (played ts w steps ≡ Ok new) ↔ AreMade ts w steps new }
    ensures refused { (ts : List PlanTxn) (w : WorldState) (steps : List (ℕ × Step)) (fault : StepFault) → (played ts w steps ≡ Err fault) ↔ IsFirstFault ts w steps fault }
{}

/// Where nothing fails and memory suffices, a known input decides how `world` ends and what it writes.
pub fn world_ends_once()
    ensures { (e : PlayEnd) (limit before now : ℕ) (document : List ℕ) (left : Option (List ℕ)) (old : List ℕ) (new : Option (List ℕ))
        → IsOutcome e → PlayEnds limit (Rose before now) (Ok e) (Some document) left (Some old) new → CameTo (outcome_of limit document) e old new }
{}
