// The promise.
ghost use Rattle.std.specs.Prelude.{◌≡◌, ℕ, List};
ghost use Rattle.fc_agreement.specs.Agreement.{Agree, OnePlan, Ready, SettleOnce};
ghost use Rattle.fc_machine.specs.Trace.{bare_facts};
ghost use Rattle.fc_protocol.specs.WorldSteps as network;
ghost use Rattle.fc_rounds.specs.Following.{GoesOn};
ghost use Rattle.fc_rounds.specs.Lines.{AreNumbered, OneWord, ReportTells};
ghost use Rattle.fc_rounds.specs.Networks.{network_of};
ghost use Rattle.fc_rounds.specs.Promise.{AllFolded, AllTell, Fenced, Settles};
ghost use Rattle.fc_steps.specs.declared.step.Step.{Step as Steps};
ghost use Rattle.fc_world.specs.Played.{AreMade};
ghost use Rattle.fc_world.specs.Reports.{world_report};
ghost use Rattle.fc_world.specs.Settings.{IsNetwork};
ghost use Rattle.fc_world.specs.WorldSteps.{facts, run};
ghost use Rattle.fc_world.specs.Worlds.{WorldState, first_world};
ghost use Rattle.fc_world.specs.declared.setting.Setting.{Setting as Settings};

/// Whatever steps are made in a network element, it is a run of the protocol's network: its elements, the lives of its control elements and all
/// messages are those of that network, and so is all that has happened.
pub fn networks_follow_the_protocol()
    ensures { (s : Settings) (done : List (ℕ × Steps)) → IsNetwork s → AreMade s.transactions (first_world s) done
        → GoesOn s (run s.transactions (first_world s) done) (facts s.transactions (first_world s) done) (network.first_world (network_of s)) }
{}

/// So at every moment of every script, however messages are lost, repeated or reordered and control elements and elements stop and return: no two elements
/// settle one transaction differently, and none settles one twice; one is completed only where every participant had prepared it, and all opened it with
/// the same participants; each element's settled configuration is the fold of what it has completed alone; a Config of a life that an element has
/// replaced changes nothing there; what a control element counts as settled was settled so at every participant; and each element's records tell exactly
/// what was settled there and is not below its floor, below it there is none, and the report says the same, so that no transaction is completed in one line
/// of it and aborted in another, be it of an element or, where no two have one number, of a control element.
pub fn networks_keep_the_promise()
    ensures agree { (s : Settings) (done : List (ℕ × Steps)) → IsNetwork s → AreMade s.transactions (first_world s) done → Agree (bare_facts (facts s.transactions (first_world s) done)) }
    ensures once { (s : Settings) (done : List (ℕ × Steps)) → IsNetwork s → AreMade s.transactions (first_world s) done → SettleOnce (bare_facts (facts s.transactions (first_world s) done)) }
    ensures ready { (s : Settings) (done : List (ℕ × Steps)) → IsNetwork s → AreMade s.transactions (first_world s) done → Ready (bare_facts (facts s.transactions (first_world s) done)) }
    ensures one_plan { (s : Settings) (done : List (ℕ × Steps)) → IsNetwork s → AreMade s.transactions (first_world s) done → OnePlan (bare_facts (facts s.transactions (first_world s) done)) }
    ensures folded { (s : Settings) (done : List (ℕ × Steps)) → IsNetwork s → AreMade s.transactions (first_world s) done → AllFolded s (run s.transactions (first_world s) done) (facts s.transactions (first_world s) done) }
    ensures fenced { (w : WorldState) → Fenced w }
    ensures settled { (s : Settings) (done : List (ℕ × Steps)) → IsNetwork s → AreMade s.transactions (first_world s) done → Settles (run s.transactions (first_world s) done) (facts s.transactions (first_world s) done) }
    ensures told { (s : Settings) (done : List (ℕ × Steps)) → IsNetwork s → AreMade s.transactions (first_world s) done → AllTell (run s.transactions (first_world s) done) (facts s.transactions (first_world s) done) }
    ensures reported { (s : Settings) (done : List (ℕ × Steps)) → IsNetwork s → AreMade s.transactions (first_world s) done → ReportTells (run s.transactions (first_world s) done) (facts s.transactions (first_world s) done) (world_report (run s.transactions (first_world s) done)) }
    ensures one_word { (s : Settings) (done : List (ℕ × Steps)) → IsNetwork s → AreNumbered s → AreMade s.transactions (first_world s) done → OneWord (world_report (run s.transactions (first_world s) done)) }
{}
