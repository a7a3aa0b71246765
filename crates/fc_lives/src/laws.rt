// Laws of an element over whole lists of inputs.
ghost use Rattle.std.specs.Prelude.{◌≡◌, ℕ, ◌<◌, List, [], true};
ghost use Rattle.std.specs.List.{AllByRecursion};
ghost use Rattle.fc_abiding.specs.Abiding.{seen};
ghost use Rattle.fc_abiding.specs.Runs.{IsHeard};
ghost use Rattle.fc_agreement.specs.Scopes.{RisingScopes};
ghost use Rattle.fc_blocks.specs.Opening.{opened_store};
ghost use Rattle.fc_element.specs.ElementMachine.{ledger_of, step};
ghost use Rattle.fc_element.specs.ElementState.{ElementState, opened};
ghost use Rattle.fc_element.specs.Runs.{after};
ghost use Rattle.fc_element.specs.declared.input.ElIn.{ElIn};
ghost use Rattle.fc_element.specs.declared.input.ElIn.TheVariants.{Arrived};
ghost use Rattle.fc_folding.specs.Folding.{Fits, Folds, is_control};
ghost use Rattle.fc_lives.specs.Lives.{life_after};
ghost use Rattle.fc_lives.specs.Rests.{AreKeptRests, AreProperIns};
ghost use Rattle.fc_lives.specs.SettledEvents.{with_restarts};
ghost use Rattle.fc_machine.specs.Trace.{bare_facts};
ghost use Rattle.fc_msg.specs.declared.message.Message.{Message as Messages};
ghost use Rattle.fc_msg.specs.declared.message.MsgBody.TheVariants.{Config};
ghost use Rattle.fc_path.specs.declared.oper.Select.{Select as Selects};
ghost use Rattle.fc_protocol.specs.Messages.{stamp};
ghost use Rattle.fc_protocol.specs.declared.verdict.Verdict.TheVariants.{Stale};
ghost use Rattle.fc_protocol.specs.OneElement.{Distinct, FewParticipants, FloorClear, Limited, Owned, PreparedFirst, RecordsTell, ScopesApart, SettlesOnce};
ghost use Rattle.fc_transactions.specs.Order.{asked_of, judged};
ghost use Rattle.fc_types.specs.declared.class.Class.{Class as Classes};

/// Of a new element, after any inputs from any peers: its settled configuration is the fold of what it has completed on the one with which it opened,
/// its working configuration is the fold of what it holds, in order of entry, on the settled one, with the code 00 at each of these operations; and
/// what it keeps of transactions is that of the records of what is held. While no life has claimed it it has no record; and where its first control element
/// has the ID of one, so has the one that configures it.
pub fn elements_fold()
    ensures folds { (id ce : ℕ) (library : List Classes) (instances : List (ℕ × ℕ)) (is : List ElIn) → Folds (opened_store library instances) (life_after id ce library instances is) }
    ensures fits { (id ce : ℕ) (library : List Classes) (instances : List (ℕ × ℕ)) (is : List ElIn) → Fits (life_after id ce library instances is).state.ledger }
    ensures unclaimed { (id ce : ℕ) (library : List Classes) (instances : List (ℕ × ℕ)) (is : List ElIn) → (life_after id ce library instances is).state.epoch ≡ 0 → (life_after id ce library instances is).state.ledger.records.entries ≡ [] }
    ensures controller { (id ce : ℕ) (library : List Classes) (instances : List (ℕ × ℕ)) (is : List ElIn) → is_control ce ≡ true → is_control (life_after id ce library instances is).state.ce ≡ true }
{}

/// And it is an element of the protocol that has heard some requests: each transaction that it has completed it had prepared before, it settles none
/// twice; its records tell what it has settled that is not below its floor, and no record is below it; no two of its records are of one transaction, the
/// scopes of what is held do not meet, and there are no more records and held ones than there may be, each with at most 64 participants and a scope that
/// rises and names no instance of the control class; and its epoch is 0 or one, and only while it is 0 it has no master.
pub fn elements_keep_to_the_protocol()
    ensures heard { (id ce : ℕ) (library : List Classes) (instances : List (ℕ × ℕ)) (is : List ElIn) → IsHeard id ce (life_after id ce library instances is) }
    ensures prepared_first { (id ce : ℕ) (library : List Classes) (instances : List (ℕ × ℕ)) (is : List ElIn) → PreparedFirst id (bare_facts (life_after id ce library instances is).facts) }
    ensures settles_once { (id ce : ℕ) (library : List Classes) (instances : List (ℕ × ℕ)) (is : List ElIn) → SettlesOnce id (bare_facts (life_after id ce library instances is).facts) }
    ensures records_tell { (id ce : ℕ) (library : List Classes) (instances : List (ℕ × ℕ)) (is : List ElIn) → let life = life_after id ce library instances is in RecordsTell id life.state.ledger.records.floor life.state.ledger.records.entries (bare_facts life.facts) }
    ensures floor_clear { (id ce : ℕ) (library : List Classes) (instances : List (ℕ × ℕ)) (is : List ElIn) → let life = life_after id ce library instances is in FloorClear life.state.ledger.records.floor life.state.ledger.records.entries }
    ensures rising { (id ce : ℕ) (library : List Classes) (instances : List (ℕ × ℕ)) (is : List ElIn) → RisingScopes (life_after id ce library instances is).state.ledger.records.entries }
    ensures few { (id ce : ℕ) (library : List Classes) (instances : List (ℕ × ℕ)) (is : List ElIn) → FewParticipants (life_after id ce library instances is).state.ledger.records.entries }
    ensures owned { (id ce : ℕ) (library : List Classes) (instances : List (ℕ × ℕ)) (is : List ElIn) → Owned ce (seen (life_after id ce library instances is).state) }
    ensures distinct { (id ce : ℕ) (library : List Classes) (instances : List (ℕ × ℕ)) (is : List ElIn) → Distinct (life_after id ce library instances is).state.ledger.records.entries }
    ensures apart { (id ce : ℕ) (library : List Classes) (instances : List (ℕ × ℕ)) (is : List ElIn) → ScopesApart (life_after id ce library instances is).state.ledger.records.entries }
    ensures limited { (id ce : ℕ) (library : List Classes) (instances : List (ℕ × ℕ)) (is : List ElIn) → Limited (life_after id ce library instances is).state.ledger.records.entries }
{}

/// A Config of a life below the epoch of an element changes nothing there, in any part, its associations among them, and is no fact, whoever sends it, over
/// whichever peer, and whatever it asks.
pub fn replaced_lives_change_no_element()
    ensures state { (s : ElementState) (peer : ℕ) (m : Messages) (selects : List Selects) → m.body ≡ Config selects → (stamp m.corr).life < s.transactions.epoch → (step s (Arrived peer m)).state ≡ s }
    ensures facts { (s : ElementState) (peer : ℕ) (m : Messages) (selects : List Selects) → m.body ≡ Config selects → (stamp m.corr).life < s.transactions.epoch → (step s (Arrived peer m)).facts ≡ [] }
{}

/// A Config whose verdict is that it is stale changes nothing at an element, in any part, its associations among them, and is no fact, whoever
/// sends it, over whichever peer, and whatever it asks.
pub fn stale_configs_change_no_element()
    ensures state { (s : ElementState) (peer : ℕ) (m : Messages) (selects : List Selects) → m.body ≡ Config selects → judged s.transactions m (asked_of m selects) ≡ Stale → (step s (Arrived peer m)).state ≡ s }
    ensures facts { (s : ElementState) (peer : ℕ) (m : Messages) (selects : List Selects) → m.body ≡ Config selects → judged s.transactions m (asked_of m selects) ≡ Stale → (step s (Arrived peer m)).facts ≡ [] }
{}

/// After any inputs that are messages of the grammar, and restarts between them, each rest that an element keeps is a list of selects that the grammar
/// has in a Config, not empty; and a Config with these selects passes no length field, so it can be sent, and is read as itself.
pub fn kept_rests_can_be_sent()
    ensures { (id ce : ℕ) (library : List Classes) (instances : List (ℕ × ℕ)) (runs : List (List ElIn)) (is : List ElIn) → AllByRecursion AreProperIns runs → AreProperIns is → AreKeptRests (ledger_of (after (with_restarts (opened id ce library instances) runs) is)).holdings }
{}
