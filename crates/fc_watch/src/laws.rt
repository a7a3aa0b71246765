// What holds of every evaluation.
ghost use Rattle.std.specs.Prelude.{◌≡◌, ◌-ℤ◌, ◌+ℤ◌, pos, int_le, true, false, []};
ghost use Rattle.fc_types.specs.declared.class.When.TheVariants.{Greater, Less};
ghost use Rattle.fc_watch.specs.Watching.{number, armed_of, evaluated};
ghost use Rattle.fc_watch.specs.declared.watch.Condition.{Condition};
ghost use Rattle.fc_watch.specs.declared.watch.Seen.{Seen};
ghost use Rattle.fc_watch.specs.declared.watch.Watch.{Watch};

/// A second evaluation on an equal value tells nothing and changes nothing.
pub fn an_equal_value_tells_nothing()
    ensures { (c : Condition) (w : Watch) (s : Seen) → evaluated c (evaluated c w s).0 s ≡ ((evaluated c w s).0, []) }
{}

/// An event on a threshold that is not armed arms only where the value is beyond the threshold by the hysteresis.
pub fn arms_beyond_the_hysteresis()
    ensures greater { (c : Condition) (s : Seen) → armed_of Greater c false s ≡ true → int_le (number s) (c.threshold -ℤ pos c.hysteresis) ≡ true }
    ensures less { (c : Condition) (s : Seen) → armed_of Less c false s ≡ true → int_le (c.threshold +ℤ pos c.hysteresis) (number s) ≡ true }
{}
