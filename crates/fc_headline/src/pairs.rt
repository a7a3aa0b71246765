//! The laws are not empty: a configuration and masters that keep them.

ghost use Rattle.std.specs.Prelude.{◌≡◌, true, false, [], ◌∷◌};
ghost use Rattle.fc_headline.specs.PlainestLaws.{pairs_lawful, plainest_fit, plainest_spell};
ghost use Rattle.fc_headline.specs.PlainestMasters.{Driver, Plan, plainest, two_numbers};
ghost use Rattle.fc_machine.specs.Plainest.{Pair, Set, pairs};
ghost use Rattle.fc_machine.specs.WorldSteps.{may_start};

use crate::Grounds;

/// Two numbers, each at an instance of its own, and masters that keep what the protocol says, and the changes of each transaction.
pub struct Pairs;

impl Grounds for Pairs {
    ghost Config = { Pair };

    ghost Op = { Set };

    ghost Subs = { Unit {0} };

    ghost basis = { pairs };

    ghost lawful = { pairs_lawful };

    ghost Master = { Driver Set };

    ghost Plan = { Plan Set };

    ghost Change = { Unit {0} };

    ghost masters = { plainest Set };

    ghost Good = { λ _. Unit {0} };

    ghost fit = { plainest_fit Set };

    ghost Drives = { λ m x plan. m.changes x ≡ plan.changes };

    ghost spell = { plainest_spell Set };
}

/// At first a life of round 1 may begin, of a controller that there is.
pub fn first_life()
    ensures starts { may_start pairs (plainest Set) (two_numbers (1 ∷ 2 ∷ [])) 1 1 ≡ true }
    ensures no_round { may_start pairs (plainest Set) (two_numbers (1 ∷ 2 ∷ [])) 1 0 ≡ false }
    ensures no_controller { may_start pairs (plainest Set) (two_numbers (1 ∷ 2 ∷ [])) 2 1 ≡ false }
    ensures twice { may_start pairs (plainest Set) (two_numbers (1 ∷ 1 ∷ [])) 1 1 ≡ false }
{}
