// Laws of what is registered and told over the whole life of an element.
ghost use Rattle.std.specs.Prelude.{◌≡◌, ◌∷◌, [], List, ℕ, Some};
ghost use Rattle.fc_element.specs.ElementMachine.{ledger_of, step};
ghost use Rattle.fc_element.specs.ElementState.{opened};
ghost use Rattle.fc_element.specs.Runs.{after, did_at};
ghost use Rattle.fc_element.specs.declared.input.ElIn.{ElIn};
ghost use Rattle.fc_events.specs.Order.{DoRise, NeverFall, places, told_places};
ghost use Rattle.fc_events.specs.Setting.{effect, exec_outcome};
ghost use Rattle.fc_events.specs.declared.subscriptions.Notice.{Notice};
ghost use Rattle.fc_events.specs.declared.subscriptions.Subscription.{Subscription};
ghost use Rattle.fc_modes.specs.Modes.{folded};
ghost use Rattle.fc_modes.specs.declared.mode.Mode.{Mode};
ghost use Rattle.fc_msg.specs.declared.message.Message.{Message};
ghost use Rattle.fc_path.specs.declared.oper.Leaf.{Leaf};
ghost use Rattle.fc_path.specs.declared.oper.Select.{Select};
ghost use Rattle.fc_performing.specs.Notices.{notice_message};
ghost use Rattle.fc_performing.specs.Sending.{out};
ghost use Rattle.fc_performing.specs.declared.out.Route.{Route};
ghost use Rattle.fc_store.specs.Stores.{Stored};
ghost use Rattle.fc_telling.specs.ToldEvents.{told_by};
ghost use Rattle.fc_transactions.specs.Phases.{Did};
ghost use Rattle.fc_types.specs.declared.class.Class.{Class};

/// The events that are registered at an element stand in their order, by class, instance and ID: none is registered at first; SET-PROPs,
/// one after the other and as a whole Config in each mode, keep the order; and so it is after any inputs.
pub fn registered_events_always_rise()
    ensures first { DoRise (places []) }
    ensures each { (s : Stored) (subs : List Subscription) (leaves : List Leaf) → DoRise (places subs) → DoRise (places (folded effect (s, subs) leaves).1) }
    ensures whole { (mode : Mode) (s : Stored) (subs : List Subscription) (selects : List Select) → DoRise (places subs) → DoRise (places (exec_outcome mode s subs selects).state.1) }
    ensures always { (id ce : ℕ) (library : List Class) (instances : List (ℕ × ℕ)) (is : List ElIn) → DoRise (places (ledger_of (after (opened id ce library instances) is)).subscriptions) }
{}

/// After any inputs an element tells of events in their order: the message of a notice tells of its event alone; and the notices of what a
/// Config does, and all messages that are sent at the next input, whatever that is, never go back to an event of a lesser
/// class, instance or ID.
pub fn an_element_tells_in_order()
    ensures notice { (peer : ℕ) (library : List Class) (r : Route) (n : Notice) → told_by (out peer (notice_message library r n) ∷ []) ≡ n.place ∷ [] }
    ensures done { (id ce : ℕ) (library : List Class) (instances : List (ℕ × ℕ)) (is : List ElIn) (m : Message) (selects : List Select) (d : Did) → did_at (after (opened id ce library instances) is).transactions m selects ≡ Some d → NeverFall (told_places d.notices) }
    ensures sent { (id ce : ℕ) (library : List Class) (instances : List (ℕ × ℕ)) (is : List ElIn) (i : ElIn) → NeverFall (told_by (step (after (opened id ce library instances) is) i).outs) }
{}
