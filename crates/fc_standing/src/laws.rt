//! Laws of the store under the machine of an element. Each function has no body: what it ensures holds of the definitions in specs/.

ghost use Rattle.std.specs.Prelude.{◌≡◌, ◌≢◌, ◌∷◌, ◌++◌, [], ℕ, true, false, List, map, Some, None};
ghost use Rattle.std.specs.List.{AllByRecursion};
ghost use Rattle.fc_base.specs.Ids.{Txn};
ghost use Rattle.fc_events.specs.Setting.{exec_outcome};
ghost use Rattle.fc_events.specs.declared.subscriptions.Notice.{Notice};
ghost use Rattle.fc_events.specs.declared.subscriptions.Subscription.{Subscription};
ghost use Rattle.fc_exec.specs.Operations as exec;
ghost use Rattle.fc_exec.specs.Operations.{applied, operations};
ghost use Rattle.fc_exec.specs.declared.operations.Operation.{Operation};
ghost use Rattle.fc_headline.specs.OneElement.{Each, Inside};
ghost use Rattle.fc_machine.specs.ElementState.{Element, Entry, bares, first_code, ops_at, rest_added, undone_records, working, written};
ghost use Rattle.fc_machine.specs.Ground.{Lawful};
ghost use Rattle.fc_machine.specs.Transactions as machine;
ghost use Rattle.fc_machine.specs.Transactions.{places, rest_codes, scope_at};
ghost use Rattle.fc_modes.specs.Modes.{folded, outcome};
ghost use Rattle.fc_modes.specs.declared.mode.Mode.{Mode};
ghost use Rattle.fc_modes.specs.declared.mode.Mode.TheVariants.{AllOrNone};
ghost use Rattle.fc_path.specs.declared.oper.Select.{Select};
ghost use Rattle.fc_protocol.specs.OneElement.{ScopesApart};
ghost use Rattle.fc_protocol.specs.Records.{any_taken, clashes, is_held, state_of};
ghost use Rattle.fc_protocol.specs.Scopes.{Scope};
ghost use Rattle.fc_protocol.specs.declared.states.TxnState.{TxnState};
ghost use Rattle.fc_protocol.specs.declared.states.TxnState.TheVariants.{Started, Prepared, Completed, Aborted};
ghost use Rattle.fc_standing.specs.Basis.{props_set, registered, store_basis};
ghost use Rattle.fc_standing.specs.Holding.{AreHeld, Holding, IsSettled, LieBeside, LieIn, gone_back_to, held_ops, holdings, marking, standing};
ghost use Rattle.fc_store.specs.Stores.{IsWhole, Stored, gone_back, mark_of, over_mark, settled, with_mark, without_mark};

/// A store is what the machine of an element stands on, whatever numbers notices have: what is refused changes nothing, what lies at no
/// instance is refused, and of operations at different instances each gives its own code and both the same state, in either order. What is
/// outside a scope is refused there as it is by the machine, and SET-PROPs are those of a whole Config.
pub fn a_store_is_lawful()
    ensures lawful { (told : Notice → ℕ) (gone : ℕ) (instances : List (ℕ × ℕ)) → Lawful (store_basis told gone instances) }
    ensures within { (told : Notice → ℕ) (gone : ℕ) (instances : List (ℕ × ℕ)) (scope : Scope) (s : Stored) (op : Operation) → machine.within (store_basis told gone instances) scope s op ≡ exec.within scope s op }
    ensures props { (mode : Mode) (s : Stored) (subs : List Subscription) (selects : List Select) → props_set s subs mode (operations selects) ≡ registered (exec_outcome mode s subs selects) }
{}

/// Transactions that are held on a settled configuration do not get in each other's way. One that begins marks the instances of its scope,
/// where no other mark stands. What is added to one stands behind its own operations, and is refused or not as in the working configuration,
/// which is that of all held operations on the settled one. On going back, one leaves nothing. On completing, one has changed the settled
/// configuration. What is changed outside their scopes is changed in the settled configuration, with the same codes. And a copy of the store as
/// it was at their marks is the settled configuration.
pub fn held_transactions_stand_apart()
    ensures begun { (c : Stored) (hs : List Holding) (scope : Scope) → AreHeld (hs ++ record { scope = scope; ops = [] } ∷ []) → IsSettled c → mark_of scope (standing c hs) ≡ marking scope c.instances }
    ensures marked { (c : Stored) (hs : List Holding) (scope : Scope) → over_mark with_mark (marking scope c.instances) (standing c hs) ≡ standing c (hs ++ record { scope = scope; ops = [] } ∷ []) }
    ensures added { (c : Stored) (hs more : List Holding) (x : Holding) (ops : List Operation) → AreHeld (hs ++ x ∷ more) → LieIn x.scope ops → folded applied (standing c (hs ++ x ∷ more)) ops ≡ standing c (hs ++ record { scope = x.scope; ops = x.ops ++ ops } ∷ more) }
    ensures undone { (c : Stored) (hs more : List Holding) (x : Holding) → AreHeld (hs ++ x ∷ more) → over_mark gone_back (marking x.scope c.instances) (standing c (hs ++ x ∷ more)) ≡ standing c (hs ++ more) }
    ensures completed { (c : Stored) (hs more : List Holding) (x : Holding) → AreHeld (hs ++ x ∷ more) → over_mark without_mark (marking x.scope c.instances) (standing c (hs ++ x ∷ more)) ≡ standing (folded applied c x.ops) (hs ++ more) }
    ensures beside { (mode : Mode) (c : Stored) (hs : List Holding) (ops : List Operation) → AreHeld hs → AllByRecursion (LieBeside ops) hs → (outcome applied mode (standing c hs) ops).state ≡ standing (outcome applied mode c ops).state hs }
    ensures beside_codes { (mode : Mode) (c : Stored) (hs : List Holding) (ops : List Operation) → AreHeld hs → AllByRecursion (LieBeside ops) hs → (outcome applied mode (standing c hs) ops).codes ≡ (outcome applied mode c ops).codes }
    ensures working { (c : Stored) (hs : List Holding) → IsSettled c → settled [] (standing c hs) ≡ folded applied c (held_ops hs) }
    ensures element { (told : Notice → ℕ) (gone : ℕ) (instances : List (ℕ × ℕ)) (el : Element Stored Operation (List Subscription)) → IsSettled el.settled → settled [] (standing el.settled (holdings el.records)) ≡ working (store_basis told gone instances) el }
    ensures copied { (scope : Scope) (mode : Mode) (s : Stored) (ops : List Operation) → settled [] (outcome (exec.within scope) mode s ops).state ≡ (outcome (exec.within scope) mode (settled [] s) ops).state }
    ensures copied_codes { (scope : Scope) (mode : Mode) (s : Stored) (ops : List Operation) → (outcome (exec.within scope) mode s ops).codes ≡ (outcome (exec.within scope) mode (settled [] s) ops).codes }
    ensures settled { (c : Stored) (hs : List Holding) → AreHeld hs → IsSettled c → IsWhole c → settled (map (λ (h : Holding). marking h.scope c.instances) hs) (standing c hs) ≡ c }
{}

/// The records of an element say which transactions are held on its store, and a rest does there what the machine says. Where the scopes of what
/// is held do not meet, and each held operation lies in its own, they are held as above, and with one more whose scope meets none; and what lies
/// at no instance that is held is beside them all. A rest has the codes that it has on the working configuration; where the first that is not 00 is
/// none, each operation lies in the scope and all of them are done, and else nothing is.
pub fn a_rest_is_done_or_leaves_all()
    ensures held { (told : Notice → ℕ) (gone : ℕ) (instances : List (ℕ × ℕ)) (ns : List (Entry Operation)) → ScopesApart (bares ns) → Each (Inside (store_basis told gone instances)) ns → AreHeld (holdings ns) }
    ensures begins { (scope : Scope) (ns : List (Entry Operation)) → AreHeld (holdings ns) → clashes scope (bares ns) ≡ false → AreHeld (holdings ns ++ record { scope = scope; ops = [] } ∷ []) }
    ensures beside { (told : Notice → ℕ) (gone : ℕ) (instances : List (ℕ × ℕ)) (ns : List (Entry Operation)) (ops : List Operation) → any_taken (bares ns) (places (store_basis told gone instances) ops) ≡ false → AllByRecursion (LieBeside ops) (holdings ns) }
    ensures codes { (told : Notice → ℕ) (gone : ℕ) (instances : List (ℕ × ℕ)) (el : Element Stored Operation (List Subscription)) (scope : Scope) (ops : List Operation) → IsSettled el.settled → (outcome (exec.within scope) AllOrNone (standing el.settled (holdings el.records)) ops).codes ≡ rest_codes (store_basis told gone instances) el scope ops }
    ensures inside { (scope : Scope) (s : Stored) (ops : List Operation) → first_code (outcome (exec.within scope) AllOrNone s ops).codes ≡ 0 → LieIn scope ops }
    ensures done { (scope : Scope) (s : Stored) (ops : List Operation) → first_code (outcome (exec.within scope) AllOrNone s ops).codes ≡ 0 → (outcome (exec.within scope) AllOrNone s ops).state ≡ folded applied s ops }
    ensures left { (scope : Scope) (s : Stored) (ops : List Operation) → first_code (outcome (exec.within scope) AllOrNone s ops).codes ≢ 0 → (outcome (exec.within scope) AllOrNone s ops).state ≡ s }
{}

/// What becomes of the store as the records of an element change. A start stands behind what is held, without operations; preparing changes
/// nothing; what is added to a held transaction, its going back and its completing are those of its record; and a claim that lets what is
/// started go back, in order of entry, leaves what the records then hold.
pub fn the_store_follows_the_records()
    ensures opens { (x : Txn) (ps : List ℕ) (sc : Scope) (ns : List (Entry Operation)) → state_of x (bares ns) ≡ None → holdings (written x ps sc Started ns) ≡ holdings ns ++ record { scope = sc; ops = [] } ∷ [] }
    ensures prepares { (x : Txn) (ps : List ℕ) (sc : Scope) (ns : List (Entry Operation)) → state_of x (bares ns) ≡ Some Started → holdings (written x ps sc Prepared ns) ≡ holdings ns }
    ensures adds { (c : Stored) (x : Txn) (s : TxnState) (ns : List (Entry Operation)) (ops : List Operation) → AreHeld (holdings ns) → state_of x (bares ns) ≡ Some s → is_held s ≡ true → LieIn (scope_at x ns) ops → folded applied (standing c (holdings ns)) ops ≡ standing c (holdings (rest_added x ops ns)) }
    ensures undoes { (c : Stored) (x : Txn) (s : TxnState) (ps : List ℕ) (sc : Scope) (ns : List (Entry Operation)) → AreHeld (holdings ns) → state_of x (bares ns) ≡ Some s → is_held s ≡ true → over_mark gone_back (marking (scope_at x ns) c.instances) (standing c (holdings ns)) ≡ standing c (holdings (written x ps sc Aborted ns)) }
    ensures completes { (c : Stored) (x : Txn) (s : TxnState) (ps : List ℕ) (sc : Scope) (ns : List (Entry Operation)) → AreHeld (holdings ns) → state_of x (bares ns) ≡ Some s → is_held s ≡ true → over_mark without_mark (marking (scope_at x ns) c.instances) (standing c (holdings ns)) ≡ standing (folded applied c (ops_at x ns)) (holdings (written x ps sc Completed ns)) }
    ensures claims { (c : Stored) (ns : List (Entry Operation)) → AreHeld (holdings ns) → gone_back_to c.instances ns (standing c (holdings ns)) ≡ standing c (holdings (undone_records ns)) }
{}
