// Laws of a large run, and of what is told of it.
ghost use Rattle.std.specs.Prelude.{◌≡◌, ◌++◌, ◌∷◌, ℕ, List, Some};
ghost use Rattle.std.specs.List.{fold};
ghost use Rattle.fc_documents.specs.declared.transaction.PlanTxn.{PlanTxn};
ghost use Rattle.fc_steps.specs.declared.step.Step.{Step};
ghost use Rattle.fc_world.specs.Played.{AreMade};
ghost use Rattle.fc_world.specs.Trails.{past, trail_of, trodden};
ghost use Rattle.fc_world.specs.Worlds.{WorldState};
ghost use Rattle.fc_world.specs.WorldSteps.{fault_of, run};
ghost use Rattle.fc_world.specs.declared.faults.WorldFault.{WorldFault};
ghost use Rattle.fc_world.specs.declared.sent.Parcel.{Parcel};
ghost use Rattle.fc_generating.specs.Summaries.{heartbeat};
ghost use Rattle.fc_generating.specs.Trying.{tried};

/// The trail of messages behind others is that of the others, taken on by these. Over the 24 bytes of one heartbeat it is 7ABC2C88.
pub fn trails_go_on()
    ensures behind { (ps qs : List Parcel) → trail_of (ps ++ qs) ≡ fold past (trail_of ps) qs }
    ensures row { fold trodden 0 heartbeat ≡ 2059152520 }
{}

/// Steps that can all be made, each when its turn comes, come to the world after them all. Where a step can't be made behind such steps, whatever stands
/// behind it, they come to the world before it.
pub fn steps_are_made_in_order()
    ensures all { (ts : List PlanTxn) (w : WorldState) (steps : List (ℕ × Step)) → AreMade ts w steps → tried ts w steps ≡ run ts w steps }
    ensures front { (ts : List PlanTxn) (w : WorldState) (front rest : List (ℕ × Step)) (x : ℕ × Step) (f : WorldFault) → AreMade ts w front → fault_of ts (run ts w front) x.1 ≡ Some f → tried ts w (front ++ x ∷ rest) ≡ run ts w front }
{}
