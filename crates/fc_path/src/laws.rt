// Laws of selects and their spellings.
ghost use Rattle.std.specs.Prelude.{◌≡◌, ◌+◌, ◌++◌, ◌%◌, ◌<◌, ◌≤◌, ◌⊎◌, ◌↔◌, List, ℕ, suc, length, Ok, Err, true};
ghost use Rattle.std.specs.List.{AllByRecursion};
ghost use Rattle.fc_wire.specs.Bytes.{AreBytes};
ghost use Rattle.fc_wire.specs.Tiling.{in_front};
ghost use Rattle.fc_wire.specs.Tlvs.{TlvItem, Lent, tlvs};
ghost use Rattle.fc_path.specs.Canon.{select_written};
ghost use Rattle.fc_path.specs.Grammar.{IsSelect, IsSelectOf};
ghost use Rattle.fc_path.specs.Heads.{path_by_head};
ghost use Rattle.fc_path.specs.Proper.{ProperSelect};
ghost use Rattle.fc_path.specs.Reading.{oper_at, path_at, select_at};
ghost use Rattle.fc_path.specs.SelectHeads.{oper_by_head, select_by_head};
ghost use Rattle.fc_path.specs.Visits.{IsGood, FirstBad, AreRising, select_visits};
ghost use Rattle.fc_path.specs.declared.fault.PathFault.{PathFault};
ghost use Rattle.fc_path.specs.declared.fault.PathFault.TheVariants.{Memory};
ghost use Rattle.fc_path.specs.declared.oper.OperKind.{OperKind};
ghost use Rattle.fc_path.specs.declared.oper.Select.{Select};

/// A TLV is at most one select, and the same bytes are at most one.
pub fn selects_are_unique()
    ensures tlv { (message : ℕ) (tlv : TlvItem) (s r : Select) → Lent tlv → IsSelectOf message s tlv → IsSelectOf message r tlv → s ≡ r }
    ensures bytes { (message : ℕ) (bytes : List ℕ) (s r : Select) → IsSelect message s bytes → IsSelect message r bytes → s ≡ r }
{}

/// Reading gives a select exactly where the TLV is that select, and so each TLV either is exactly one select, or has
/// exactly one fault, which has a place, and is none. A select that a TLV is, is proper.
pub fn reading_is_the_grammar()
    ensures same { (message : ℕ) (tlv : TlvItem) (s : Select) → Lent tlv → AreBytes tlv.padded →
        (IsSelectOf message s tlv → select_at message tlv ≡ Ok s) × (select_at message tlv ≡ Ok s → IsSelectOf message s tlv) }
    ensures either { (message : ℕ) (tlv : TlvItem) → Lent tlv → AreBytes tlv.padded →
        ((s : Select) × IsSelectOf message s tlv) ⊎ ((fault : PathFault) × (select_at message tlv ≡ Err fault) × ((s : Select) → IsSelectOf message s tlv → ⊥)) }
    ensures proper { (message : ℕ) (tlv : TlvItem) (s : Select) → IsSelectOf message s tlv → ProperSelect message s }
    ensures placed { (message : ℕ) (tlv : TlvItem) → select_at message tlv ≡ Err Memory → ⊥ }
{}

/// What is written of a proper select is one of its spellings, and is read again as itself, also inside other bytes.
pub fn written_selects_are_read()
    ensures spelled { (message : ℕ) (s : Select) → ProperSelect message s → (select_written s).fits ≡ true → IsSelect message s (select_written s).text }
    ensures again { (message place : ℕ) (s : Select) (bytes more : List ℕ) → IsSelect message s bytes →
        (tlv : TlvItem) × (tlvs place (bytes ++ more) ≡ in_front tlv (tlvs (place + length bytes) more)) × (tlv.place ≡ place) × (select_at message tlv ≡ Ok s) }
{}

/// The fault that reading gives is that of the first test that fails in the list of all tests in reading order, whose
/// places never fall, and a TLV is read exactly where none fails.
pub fn faults_are_in_reading_order()
    ensures first { (message : ℕ) (tlv : TlvItem) (fault : PathFault) → (select_at message tlv ≡ Err fault) ↔ FirstBad fault (select_visits message tlv) }
    ensures rising { (message : ℕ) (tlv : TlvItem) → Lent tlv → AreBytes tlv.padded → AreRising tlv.place (select_visits message tlv) }
    ensures read { (message : ℕ) (tlv : TlvItem) → ((s : Select) × (select_at message tlv ≡ Ok s)) ↔ AllByRecursion IsGood (select_visits message tlv) }
{}

/// A PATH-DATA, below which so many levels less one may stand, is its head and then its body: reading gives the first fault of
/// the head, else that of the body, else the two together.
pub fn a_path_is_its_head_and_its_body()
    ensures { (kind : OperKind) (depth : ℕ) (tlv : TlvItem) → path_at kind (suc depth) tlv ≡ path_by_head kind depth tlv }
{}

/// An LFBselect of a message of a type is its head and then its operations, and each of these is its head and then what it
/// holds: reading gives the first fault of the head, else that of what it holds, else the two together.
pub fn selects_and_operations_are_their_heads_and_what_they_hold()
    ensures selects { (message : ℕ) (tlv : TlvItem) → select_at message tlv ≡ select_by_head message tlv }
    ensures operations { (message : ℕ) (tlv : TlvItem) → oper_at message tlv ≡ oper_by_head message tlv }
{}
