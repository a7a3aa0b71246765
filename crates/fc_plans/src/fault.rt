// Why selects are no change, and parts no plan.
ghost use Rattle.std.specs.Prelude.{◌≡◌};

use fc_base::Memory;

/// Why selects are no change, in the order in which it is looked for.
#[derive(Clone, Copy, Debug, PartialEq, Eq)]
pub enum ChangeFault {
    /// There is no select.
    Empty,
    /// An operation is neither SET nor DEL nor SET-PROP, or the selects are what tells an element to forget.
    Operation,
    /// A message that makes the change in a transaction, or the response of results alone to it, passes a length field.
    TooLong,
    /// Memory was wanting.
    Memory,
}

impl From<Memory> for ChangeFault {
    ghost use Rattle.fc_plans.specs.declared.fault.ChangeFault.TheVariants.{Memory};

    ghost from_gives = { λ _ e. e ≡ Memory };

    fn from(_: Memory) -> Self {
        ChangeFault::Memory
    }
}

/// Why parts are no plan, in the order in which it is looked for.
#[derive(Clone, Copy, Debug, PartialEq, Eq)]
pub enum PlanFault {
    /// There is no participant.
    Empty,
    /// The IDs of the participants do not rise.
    Order,
    /// A participant has no change or more than 256, or its changes name more than 4,096 instances where the plan has scopes.
    Changes,
    /// Memory was wanting.
    Memory,
}

impl From<Memory> for PlanFault {
    ghost use Rattle.fc_plans.specs.declared.fault.PlanFault.TheVariants.{Memory};

    ghost from_gives = { λ _ e. e ≡ Memory };

    fn from(_: Memory) -> Self {
        PlanFault::Memory
    }
}
