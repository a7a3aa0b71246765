// The clean round.
ghost use Rattle.std.specs.Prelude.{ℕ, List};
ghost use Rattle.fc_rounds.specs.CleanRound.{CleanRounds};
ghost use Rattle.fc_steps.specs.declared.step.Step.{Step as Steps};
ghost use Rattle.fc_world.specs.Played.{AreMade};
ghost use Rattle.fc_world.specs.Settings.{IsNetwork};
ghost use Rattle.fc_world.specs.Worlds.{first_world};
ghost use Rattle.fc_world.specs.declared.setting.Setting.{Setting as Settings};

/// In every network element, whatever has been done there: where a control element may begin a transaction, each participant is idle for it and can do
/// its part, and then each message that is sent from there on is delivered once, in the order of their numbers, until all are delivered, every participant
/// completes the transaction, and the report on the control element says so.
pub fn clean_rounds_complete()
    ensures { (s : Settings) (done : List (ℕ × Steps)) → IsNetwork s → AreMade s.transactions (first_world s) done → CleanRounds s done }
{}
