// Laws of messages and their bytes, and of the frames of a stream.
ghost use Rattle.std.specs.Prelude.{◌≡◌, ◌<◌, ◌≤◌, ◌+◌, ◌%◌, ◌^◌, ◌++◌, ◌⊎◌, ◌↔◌, [], List, ℕ, length, Option, Some, None, Ok, Err, true};
ghost use Rattle.std.specs.List.{AllByRecursion};
ghost use Rattle.fc_wire.specs.Bytes.{AreBytes};
ghost use Rattle.fc_wire.specs.Frames.{Frames, IsFrame, IsPartial, joined};
ghost use Rattle.fc_wire.specs.Tlvs.{TlvItem, tlvs};
ghost use Rattle.fc_wire.specs.declared.header.WireFault.{WireFault};
ghost use Rattle.fc_path.specs.Visits.{AreRising, FirstBad, IsGood};
ghost use Rattle.fc_path.specs.declared.fault.PathFault.{PathFault};
ghost use Rattle.fc_msg.specs.Bodies.{body_at};
ghost use Rattle.fc_msg.specs.BodyVisits.{FirstTold, IsPassed, body_visits, tests_of, visits_in};
ghost use Rattle.fc_msg.specs.declared.message.MsgBody.{MsgBody};
ghost use Rattle.fc_msg.specs.declared.message.Message.{Message};
ghost use Rattle.fc_msg.specs.declared.fault.Refusal.{Refusal};
ghost use Rattle.fc_msg.specs.Faults.{fault_of, head_fault};
ghost use Rattle.fc_msg.specs.Heads.{body_by_head};
ghost use Rattle.fc_msg.specs.Messages.{Spells, IsProper, canonical, message_fits};
ghost use Rattle.fc_msg.specs.Reading.{message_in};
ghost use Rattle.fc_msg.specs.Splitting.{Call, after_calls, fed, unfed};

/// Bytes spell at most one message, which is the one that is read from them, and is proper.
pub fn message_is_unique()
    ensures read { (m : Message) (bytes : List ℕ) → Spells m bytes → message_in bytes ≡ Some m }
    ensures one { (m n : Message) (bytes : List ℕ) → Spells m bytes → Spells n bytes → m ≡ n }
    ensures proper { (m : Message) (bytes : List ℕ) → AreBytes bytes → Spells m bytes → IsProper m }
{}

/// Bytes spell a message or break a rule, and never both.
pub fn judged_once()
    ensures either { (bytes : List ℕ) → AreBytes bytes → ((m : Message) × Spells m bytes) ⊎ ((told : Refusal) × (fault_of bytes ≡ Some told)) }
    ensures never_both { (bytes : List ℕ) (m : Message) (told : Refusal) → Spells m bytes → fault_of bytes ≡ Some told → ⊥ }
{}

/// The canonical bytes of a proper message whose lengths fit spell it, so what is encoded is decoded as itself.
pub fn canonical_is_spelled()
    ensures spelled { (m : Message) → IsProper m → message_fits m ≡ true → Spells m (canonical m) }
    ensures read { (m : Message) → IsProper m → message_fits m ≡ true → message_in (canonical m) ≡ Some m }
{}

/// No bytes that spell a message are the front of longer ones that spell one.
pub fn no_spelling_is_a_front_of_another()
    ensures { (m n : Message) (bytes more : List ℕ) → Spells m bytes → Spells n (bytes ++ more) → more ≡ [] }
{}

/// The fault of a body is that of the first test that fails in the list of all its tests in reading order, whose places
/// never fall, and a body is read exactly where none fails.
pub fn body_faults_are_in_reading_order()
    ensures first { (kind end : ℕ) (items : List TlvItem) (cut : Option WireFault) (fault : PathFault) →
        (body_at kind end items cut ≡ Err fault) ↔ FirstBad fault (body_visits kind end items cut) }
    ensures rising { (kind place : ℕ) (bytes : List ℕ) → AreBytes bytes → length bytes % 4 ≡ 0 → place + length bytes < 2 ^ 64 →
        AreRising place (body_visits kind (place + length bytes) (tlvs place bytes).items (tlvs place bytes).fault) }
    ensures read { (kind end : ℕ) (items : List TlvItem) (cut : Option WireFault) →
        ((body : MsgBody) × (body_at kind end items cut ≡ Ok body)) ↔ AllByRecursion IsGood (body_visits kind end items cut) }
{}

/// What is told of bytes is what the first test tells that tells anything, in the list of all: the rules of the header,
/// those of the type, and the tests of the body in reading order, whose places never fall. None tells anything exactly
/// where the bytes spell a message. The place that is told is within the bytes or at their end.
pub fn first_broken_rule_is_told()
    ensures first { (bytes : List ℕ) (told : Refusal) → (fault_of bytes ≡ Some told) ↔ FirstTold told (tests_of bytes) }
    ensures rising { (bytes : List ℕ) → AreBytes bytes → head_fault bytes ≡ None → AreRising 24 (visits_in bytes) }
    ensures spelled { (bytes : List ℕ) → AreBytes bytes → ((m : Message) × Spells m bytes) ↔ AllByRecursion IsPassed (tests_of bytes) }
    ensures within { (bytes : List ℕ) (told : Refusal) → AreBytes bytes → fault_of bytes ≡ Some told → told.place ≤ length bytes }
{}

/// Whatever pieces a stream is fed in, and whenever frames are asked for: what was taken are the first frames of the
/// whole stream, the rest is what stands after them, and where no whole frame is left these are all its frames.
pub fn any_pieces()
    ensures taken { (calls : List Call) → (fed calls ≡ joined (after_calls unfed calls).taken ++ (after_calls unfed calls).rest)
        × AllByRecursion IsFrame (after_calls unfed calls).taken }
    ensures all { (calls : List Call) → IsPartial (after_calls unfed calls).rest →
        Frames (fed calls) (after_calls unfed calls).taken (after_calls unfed calls).rest }
{}

/// The body of a message of a type, whose TLVs go on to an end, is its head and then its LFBselects: reading gives the first
/// fault of the head, else that of the LFBselects, else the two together.
pub fn a_body_is_its_head_and_its_selects()
    ensures { (kind end : ℕ) (items : List TlvItem) (cut : Option WireFault) → body_at kind end items cut ≡ body_by_head kind end items cut }
{}
