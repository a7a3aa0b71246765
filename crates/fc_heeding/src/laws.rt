// What is read in a request.
ghost use Rattle.std.specs.Prelude.{◌≡◌, ℕ, false};
ghost use Rattle.fc_asks.specs.Plans.{selects_of};
ghost use Rattle.fc_asks.specs.Requests.{request_of};
ghost use Rattle.fc_asks.specs.Tables.{found};
ghost use Rattle.fc_asks.specs.declared.life.Life.{Life};
ghost use Rattle.fc_heeding.specs.Heeding.{AsksFor, CanSay, CountsAs, IsSentBy, as_read};
ghost use Rattle.fc_protocol.specs.ElementMachine.{Circumstance, ElementState, hears};
ghost use Rattle.fc_protocol.specs.Messages.{Body, Stamp, is_query, stamp};

/// Each Config of a life of a control element asks of an element what the life says in it: a claim, a start of a transaction with its participants and
/// its scope, a change in it, its end, its completion, its abort, a floor, or a plain change. Its numbers fit in 32 bits, as many participants and
/// instances are named as an opening holds, and a plain change, which has no fault, and a claim have the counts that tell them apart; that is all that is
/// asked. It is from the control element of the life, for that element, and with that correlator.
pub fn configs_ask_what_was_said()
    ensures read { (life : Life) (p corr : ℕ) (b : Body) → is_query b ≡ false → CanSay (selects_of (found p life.plains)) b → CountsAs (stamp corr).count b → AsksFor (request_of life p corr b) (stamp corr) b }
    ensures sent { (life : Life) (p corr : ℕ) (b : Body) → is_query b ≡ false → IsSentBy (request_of life p corr b) life.ce p corr }
{}

/// The number of a change, which alone is not read, is nothing to an element: it does with each request what it does with what is read of it.
pub fn numbers_of_changes_are_not_read()
    ensures { (p : ℕ) (el : ElementState) (k : ℕ) (c : Circumstance) (m : Stamp) (b : Body) → hears p el k c m (as_read b) ≡ hears p el k c m b }
{}
