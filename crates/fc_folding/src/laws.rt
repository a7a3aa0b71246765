//! Laws of an element over every list of Configs.

ghost use Rattle.std.specs.Prelude.{◌≡◌, ℕ, true, List, []};
ghost use Rattle.fc_abiding.specs.Runs.{Came, life_of};
ghost use Rattle.fc_folding.specs.Folding.{Fits, Folds, OfControls, is_control};
ghost use Rattle.fc_standing.specs.Holding.{IsSettled};
ghost use Rattle.fc_store.specs.Stores.{IsWhole, Stored};

/// Of a new element over every list of Configs of control elements, from an opening configuration without marks: its settled configuration is
/// the fold of what it has completed, which is of each plain change what was done and of each transaction that completed what was added to it;
/// its working configuration is the fold of what it holds, in order of entry, on the settled one; each of these operations has the code 00; and
/// what it keeps of transactions is that of the records of what is held. While no life has claimed it, it has no record; and where its first
/// control element has the ID of one, so has the one that configures it.
pub fn an_element_folds()
    ensures folds { (id ce : ℕ) (opening : Stored) (came : List Came) → IsSettled opening → IsWhole opening → OfControls came → Folds opening (life_of id ce opening came) }
    ensures fits { (id ce : ℕ) (opening : Stored) (came : List Came) → IsSettled opening → IsWhole opening → OfControls came → Fits (life_of id ce opening came).state.ledger }
    ensures unclaimed { (id ce : ℕ) (opening : Stored) (came : List Came) → IsSettled opening → IsWhole opening → OfControls came → (life_of id ce opening came).state.epoch ≡ 0 → (life_of id ce opening came).state.ledger.records.entries ≡ [] }
    ensures controller { (id ce : ℕ) (opening : Stored) (came : List Came) → IsSettled opening → IsWhole opening → OfControls came → is_control ce ≡ true → is_control (life_of id ce opening came).state.ce ≡ true }
{}
