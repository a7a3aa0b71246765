// Laws of what is registered at an element, beside its settled configuration.
ghost use Rattle.std.specs.Prelude.{◌≡◌, ℕ, Bool, List, [], Some, true};
ghost use Rattle.std.specs.List.{AllByRecursion};
ghost use Rattle.fc_blocks.specs.Opening.{opened_store};
ghost use Rattle.fc_element.specs.ElementMachine.{ledger_of};
ghost use Rattle.fc_element.specs.ElementState.{opened};
ghost use Rattle.fc_element.specs.Runs.{after, did_at};
ghost use Rattle.fc_element.specs.declared.input.ElIn.{ElIn};
ghost use Rattle.fc_events.specs.Reports.{IsSettled};
ghost use Rattle.fc_events.specs.declared.subscriptions.Subscription.{Subscription};
ghost use Rattle.fc_folding.specs.Folding.{is_control, settled_now};
ghost use Rattle.fc_headline.specs.Events.{Preserves};
ghost use Rattle.fc_lives.specs.Registered.{AreSound};
ghost use Rattle.fc_lives.specs.SettledEvents.{AreQuiet, TellsSettled, all_held, with_restarts};
ghost use Rattle.fc_lives.specs.Told.{Takes, TellsReports};
ghost use Rattle.fc_msg.specs.declared.message.Message.{Message};
ghost use Rattle.fc_msg.specs.declared.message.MsgBody.TheVariants.{Config};
ghost use Rattle.fc_path.specs.declared.oper.Select.{Select};
ghost use Rattle.fc_standing.specs.Basis.{store_basis};
ghost use Rattle.fc_store.specs.Stores.{Stored};
ghost use Rattle.fc_transactions.specs.Phases.{Did};
ghost use Rattle.fc_types.specs.declared.class.Class.{Class};

/// After any inputs, and restarts between them, an evaluation of a registered event on the settled configuration changes nothing and tells
/// nothing, whether its instance is held or not: its memory is that of the settled configuration. So the premise holds under which an
/// evaluation beside what is held, on the working configuration, is one of all events on the settled one.
pub fn registered_events_are_settled()
    ensures quiet { (id ce : ℕ) (library : List Class) (instances : List (ℕ × ℕ)) (runs : List (List ElIn)) (is : List ElIn) → let l = ledger_of (after (with_restarts (opened id ce library instances) runs) is) in AreQuiet (settled_now l) l.subscriptions }
    ensures premise { (id ce : ℕ) (library : List Class) (instances : List (ℕ × ℕ)) (runs : List (List ElIn)) (is : List ElIn) → let l = ledger_of (after (with_restarts (opened id ce library instances) runs) is) in AllByRecursion (IsSettled (all_held l) l.store (settled_now l)) l.subscriptions }
{}

/// After any inputs, and restarts between them, what a Config of a control element makes of what is registered, and what it tells, is what an
/// evaluation of each registered event gives on the settled configuration that the Config leaves, whatever is held; and where it sets
/// properties, it sets them, with their codes, as on the settled configuration.
pub fn an_element_tells_of_its_settled_configuration()
    ensures { (id ce : ℕ) (library : List Class) (instances : List (ℕ × ℕ)) (runs : List (List ElIn)) (is : List ElIn) (m : Message) (selects : List Select) (d : Did) → let s = after (with_restarts (opened id ce library instances) runs) is in is_control m.source ≡ true → did_at s.transactions m selects ≡ Some d → TellsSettled (ledger_of s) m selects d }
{}

/// After any inputs, and restarts between them, each registered event is registered by its properties, declared, and at an instance that there
/// is; its count is at least 1; and what is remembered of it counts less than that, and has the form of the type with which its target is
/// declared: a number, the subscripts of an array, or bytes.
pub fn registered_events_are_sound()
    ensures { (id ce : ℕ) (library : List Class) (instances : List (ℕ × ℕ)) (runs : List (List ElIn)) (is : List ElIn) → let store = opened_store library instances in let l = ledger_of (after (with_restarts (opened id ce library instances) runs) is) in AreSound store.library store.instances l.subscriptions }
{}

/// What the store keeps of a configuration and what is registered, an element keeps of its settled configuration and what is registered there:
/// a test that holds at the opening with nothing registered, and again after any operations with the evaluation behind them, and after
/// properties were set with the evaluation behind that, holds after any inputs, and restarts between them.
pub fn registered_events_pass()
    ensures { (id ce : ℕ) (library : List Class) (instances : List (ℕ × ℕ)) (runs : List (List ElIn)) (is : List ElIn) (test : Stored → List Subscription → Bool) → let store = opened_store library instances in Preserves (store_basis (λ n. 0) 0 store.instances) (λ c subs. test c subs ≡ true) → test store [] ≡ true → let l = ledger_of (after (with_restarts (opened id ce library instances) runs) is) in test (settled_now l) l.subscriptions ≡ true }
{}

/// After any inputs, and restarts between them, of each Config that an element takes and does: the response goes out, and behind it one notice for
/// each report of it, in their order, to the control element that may configure the element and over the peer of its association. None is left
/// out but where a length in its message passes its field. What the reports are says `an_element_tells_of_its_settled_configuration`.
pub fn notices_are_the_reports()
    ensures { (id ce : ℕ) (library : List Class) (instances : List (ℕ × ℕ)) (runs : List (List ElIn)) (is : List ElIn) (peer : ℕ) (m : Message) (selects : List Select) (d : Did) → let s = after (with_restarts (opened id ce library instances) runs) is in m.body ≡ Config selects → Takes s peer m selects → did_at s.transactions m selects ≡ Some d → TellsReports s peer m selects d }
{}
