// What holds of each Config.
ghost use Rattle.std.specs.Prelude.{◌≡◌, ◌≢◌, ℕ, ◌<◌, List, [], length, false};
ghost use Rattle.std.specs.List.{flat_map};
ghost use Rattle.fc_agreement.specs.Scopes.{RisingScopes};
ghost use Rattle.fc_asks.specs.Codes.{select_codes};
ghost use Rattle.fc_exec.specs.Operations.{operations};
ghost use Rattle.fc_machine.specs.Trace.{bare_facts};
ghost use Rattle.fc_machine.specs.Transactions.{shown_of};
ghost use Rattle.fc_msg.specs.declared.message.Message.{Message as Messages};
ghost use Rattle.fc_path.specs.declared.oper.Select.{Select as Selects};
ghost use Rattle.fc_protocol.specs.Messages.{stamp};
ghost use Rattle.fc_protocol.specs.OneElement.{Distinct, FewParticipants, FloorClear, Limited, Owned, PreparedFirst, RecordsTell, ScopesApart, SettlesOnce};
ghost use Rattle.fc_protocol.specs.declared.verdict.Verdict.TheVariants.{Again, Stale, Unclaimed};
ghost use Rattle.fc_reply.specs.Answered.{answered_selects};
ghost use Rattle.fc_store.specs.Stores.{Stored};
ghost use Rattle.fc_transactions.specs.Order.{asked_of, configured, judged};
ghost use Rattle.fc_transactions.specs.State.{TransactionState, opened};
ghost use Rattle.fc_abiding.specs.Abiding.{Abides, IsNamed, heard, seen};
ghost use Rattle.fc_abiding.specs.Responses.{Responds, is_shown};
ghost use Rattle.fc_abiding.specs.Runs.{Came, IsHeard, life_of};

/// What a Config does to the fence, the records and their floor, and what happens then, is what the protocol says of what it asks.
pub fn configs_abide()
    ensures { (s : TransactionState) (peer : ℕ) (m : Messages) (selects : List Selects) → IsNamed s → Abides (configured s peer m selects) (heard s m selects (asked_of m selects)) }
{}

/// And so is the response to it, but for a Config that is repeated, whose kept response is sent once more, and for one to an element that no life has
/// claimed: each operation has one code, and the protocol says the first of those that are shown which is not 00, or 00.
pub fn responses_are_told()
    ensures { (s : TransactionState) (peer : ℕ) (m : Messages) (selects : List Selects) → IsNamed s → judged s m (asked_of m selects) ≢ Again → judged s m (asked_of m selects) ≢ Unclaimed → (codes : List ℕ) × Responds s peer m selects (asked_of m selects) (configured s peer m selects) codes }
{}

/// A control element reads these codes in the response: where each operation of a Config has one, in their order, those of all but TRCOMPs.
pub fn responses_are_read()
    ensures { (selects : List Selects) (codes : List ℕ) → length codes ≡ length (operations selects) → flat_map select_codes (answered_selects selects codes) ≡ shown_of is_shown (operations selects) codes }
{}

/// The epoch of a new element is 0, and it has no record.
pub fn new_elements_are_named()
    ensures { (id ce : ℕ) (store : Stored) → IsNamed (opened id ce store) }
{}

/// The epoch stays 0 or one, and each record stays that of what can be a transaction.
pub fn names_stay()
    ensures { (s : TransactionState) (peer : ℕ) (m : Messages) (selects : List Selects) → IsNamed s → IsNamed (configured s peer m selects).state }
{}

/// A Config of a life that has not claimed the element, or was replaced, changes nothing, and does not count as heard.
pub fn stale_configs_do_nothing()
    ensures state { (s : TransactionState) (peer : ℕ) (m : Messages) (selects : List Selects) → judged s m (asked_of m selects) ≡ Stale → (configured s peer m selects).state ≡ s }
    ensures heard { (s : TransactionState) (peer : ℕ) (m : Messages) (selects : List Selects) → judged s m (asked_of m selects) ≡ Stale → (configured s peer m selects).is_heard ≡ false }
    ensures facts { (s : TransactionState) (peer : ℕ) (m : Messages) (selects : List Selects) → judged s m (asked_of m selects) ≡ Stale → (configured s peer m selects).facts ≡ [] }
{}

/// A Config of a life below the epoch of the element changes nothing there, in any part, gives no fact, and does not count as heard, whoever
/// sends it and whatever it asks.
pub fn replaced_lives_do_nothing()
    ensures state { (s : TransactionState) (peer : ℕ) (m : Messages) (selects : List Selects) → (stamp m.corr).life < s.epoch → (configured s peer m selects).state ≡ s }
    ensures heard { (s : TransactionState) (peer : ℕ) (m : Messages) (selects : List Selects) → (stamp m.corr).life < s.epoch → (configured s peer m selects).is_heard ≡ false }
    ensures facts { (s : TransactionState) (peer : ℕ) (m : Messages) (selects : List Selects) → (stamp m.corr).life < s.epoch → (configured s peer m selects).facts ≡ [] }
{}

/// Of a new element over every list of Configs, from any senders: it goes as an element of the protocol. So it completes only what it has
/// prepared, and settles a transaction at most once; its records tell what it has settled that is not below its floor, no record is below it,
/// no two are of one transaction, no two scopes of what is held meet, at most 64 are held, and there are at most 4,096, each with at most 64
/// participants and a scope that rises and names no instance of the control class; and its epoch is 0 or one, and only while it is 0 it has no
/// master.
pub fn one_element()
    ensures heard { (id ce : ℕ) (store : Stored) (came : List Came) → IsHeard id ce (life_of id ce store came) }
    ensures prepared_first { (id ce : ℕ) (store : Stored) (came : List Came) → PreparedFirst id (bare_facts (life_of id ce store came).facts) }
    ensures settles_once { (id ce : ℕ) (store : Stored) (came : List Came) → SettlesOnce id (bare_facts (life_of id ce store came).facts) }
    ensures records_tell { (id ce : ℕ) (store : Stored) (came : List Came) → let life = life_of id ce store came in RecordsTell id life.state.ledger.records.floor life.state.ledger.records.entries (bare_facts life.facts) }
    ensures floor_clear { (id ce : ℕ) (store : Stored) (came : List Came) → let life = life_of id ce store came in FloorClear life.state.ledger.records.floor life.state.ledger.records.entries }
    ensures distinct { (id ce : ℕ) (store : Stored) (came : List Came) → Distinct (life_of id ce store came).state.ledger.records.entries }
    ensures apart { (id ce : ℕ) (store : Stored) (came : List Came) → ScopesApart (life_of id ce store came).state.ledger.records.entries }
    ensures rising { (id ce : ℕ) (store : Stored) (came : List Came) → RisingScopes (life_of id ce store came).state.ledger.records.entries }
    ensures few { (id ce : ℕ) (store : Stored) (came : List Came) → FewParticipants (life_of id ce store came).state.ledger.records.entries }
    ensures limited { (id ce : ℕ) (store : Stored) (came : List Came) → Limited (life_of id ce store came).state.ledger.records.entries }
    ensures owned { (id ce : ℕ) (store : Stored) (came : List Came) → Owned ce (seen (life_of id ce store came).state) }
{}
