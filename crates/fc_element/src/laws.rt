// Laws of an element over whole lists of inputs.
ghost use Rattle.std.specs.Prelude.{◌≡◌, ◌≤◌, ◌+◌, ◌++◌, ◌∷◌, ◌↔◌, [], List, ℕ};
ghost use Rattle.std.specs.List.{AllByRecursion};
ghost use Rattle.std.specs.List.Sorted.{IsPermutation};
ghost use Rattle.fc_assoc.specs.declared.heard.Heard.{Heard};
ghost use Rattle.fc_msg.specs.declared.message.Message.{Message};
ghost use Rattle.fc_types.specs.declared.class.Class.{Class as Classes};
ghost use Rattle.fc_element.specs.ElementMachine.{answer_to, settled_in, step};
ghost use Rattle.fc_performing.specs.Sending.{out};
ghost use Rattle.fc_element.specs.ElementState.{ElementState, opened};
ghost use Rattle.fc_element.specs.Runs.{Asks, IsAssociated, IsNoMoment, WasAccepted, WasCalledFor, WasHeard, WasLast, after, facts, ledgered, sent, taken};
ghost use Rattle.fc_blocks.specs.Settings.{ce_dead, ce_policy};
ghost use Rattle.fc_element.specs.declared.input.ElIn.{ElIn};
ghost use Rattle.fc_element.specs.declared.input.ElIn.TheVariants.{Arrived, Moment};

/// An element is the same in whatever order its instances are given.
pub fn instances_come_in_any_order()
    ensures { (id ce : ℕ) (library : List Classes) (one other : List (ℕ × ℕ)) → IsPermutation one other → opened id ce library one ≡ opened id ce library other }
{}

/// Whoever has an association after any inputs has accepted it, and was heard last over the peer by which it is reached.
pub fn associations_are_accepted_and_heard()
    ensures accepted { (id ce who : ℕ) (library : List Classes) (instances : List (ℕ × ℕ)) (is : List ElIn) → IsAssociated (after (opened id ce library instances) is) who → WasAccepted (opened id ce library instances) who is }
    ensures heard { (id ce who : ℕ) (library : List Classes) (instances : List (ℕ × ℕ)) (is : List ElIn) → IsAssociated (after (opened id ce library instances) is) who → (h : Heard) × WasLast (after (opened id ce library instances) is) who h × WasHeard (opened id ce library instances) who h is }
{}

/// Whoever has an association was, at the last moment that was told, heard within the time that was allowed then, if the configuration
/// that was settled then had it that silent associations end.
pub fn silent_associations_end()
    ensures { (s : ElementState) (who moment : ℕ) (behind : List ElIn) → AllByRecursion IsNoMoment behind → ce_policy (settled_in s) ≡ 0 → IsAssociated (after s (Moment moment ∷ behind)) who → (h : Heard) × WasLast (after s (Moment moment ∷ behind)) who h × ((after s (Moment moment ∷ behind)).clock ≤ h.last + ce_dead (settled_in s)) }
{}

/// After any inputs a heartbeat is answered, by one message to the peer from which it came, exactly where its sender has an
/// association and it asks.
pub fn heartbeats_are_answered()
    ensures { (id ce peer : ℕ) (library : List Classes) (instances : List (ℕ × ℕ)) (is : List ElIn) (m : Message) → ((step (after (opened id ce library instances) is) (Arrived peer m)).outs ≡ out peer (answer_to m) ∷ []) ↔ (IsAssociated (after (opened id ce library instances) is) m.source × Asks m) }
{}

/// What is sent at inputs is what is sent at each of them, one after the other, and each message that is sent is called for
/// at one of them: nothing else is ever sent.
pub fn nothing_else_is_sent()
    ensures each { (s : ElementState) (before behind : List ElIn) (i : ElIn) → sent s (before ++ i ∷ behind) ≡ sent s before ++ ((step (after s before) i).outs ++ sent (step (after s before) i).state behind) }
    ensures only { (s : ElementState) (is : List ElIn) → AllByRecursion (WasCalledFor s is) (sent s is) }
{}

/// After any inputs, what Configs may change is what those Configs make of it, one after the other, that came for the element with an
/// execution mode, from a control element that had an association, and can be answered; and what has happened to it happened at them.
pub fn configs_alone_configure()
    ensures state { (s : ElementState) (is : List ElIn) → (after s is).transactions ≡ (ledgered s.transactions (taken s is)).state }
    ensures facts { (s : ElementState) (is : List ElIn) → facts s is ≡ (ledgered s.transactions (taken s is)).facts }
{}
