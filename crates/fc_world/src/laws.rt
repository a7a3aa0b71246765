// Laws of the steps of a network element.
ghost use Rattle.std.specs.Prelude.{◌≡◌, ◌++◌, ℕ, List};
ghost use Rattle.fc_documents.specs.declared.transaction.PlanTxn.{PlanTxn};
ghost use Rattle.fc_steps.specs.declared.step.Step.{Step};
ghost use Rattle.fc_world.specs.Worlds.{WorldState};
ghost use Rattle.fc_world.specs.WorldSteps.{happens};
ghost use Rattle.fc_world.specs.declared.sent.Parcel.{Parcel};

/// What a step sends comes behind all that was sent before: of that nothing is changed, moved or taken away.
pub fn messages_stay()
    ensures { (ts : List PlanTxn) (w : WorldState) (x : ℕ × Step) → (more : List Parcel) × ((happens ts w x).sent ≡ w.sent ++ more) }
{}
