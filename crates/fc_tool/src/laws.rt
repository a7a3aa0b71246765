// Laws of frames, of what is written of them, and of how the input ends.
ghost use Rattle.std.specs.Prelude.{◌≡◌, ◌⊎◌, List, ℕ, Option, Some, Ok};
ghost use Rattle.fc_wire.specs.Bytes.{AreBytes};
ghost use Rattle.fc_wire.specs.Frames.{IsFrame};
ghost use Rattle.fc_msg.specs.Faults.{fault_of};
ghost use Rattle.fc_msg.specs.Messages.{Spells};
ghost use Rattle.fc_msg.specs.declared.fault.Refusal.{Refusal};
ghost use Rattle.fc_msg.specs.declared.message.Message.{Message};
ghost use Rattle.fc_tool.specs.declared.make.Made.{Made};
ghost use Rattle.fc_tool.specs.declared.show.Shown.{Shown};
ghost use Rattle.fc_tool.specs.Make.{IsTold, MakeEnds};
ghost use Rattle.fc_tool.specs.Show.{AreMessages, IsVerdict, ShowEnds, text_of};

/// Bytes spell a message or have exactly one fault, and never both; what spells one is a frame.
pub fn frame_is_judged_once()
    ensures either { (bytes : List ℕ) → AreBytes bytes → ((m : Message) × Spells m bytes) ⊎ ((fault : Refusal) × (fault_of bytes ≡ Some fault)) }
    ensures never_both { (bytes : List ℕ) (m : Message) (fault : Refusal) → Spells m bytes → fault_of bytes ≡ Some fault → ⊥ }
    ensures frame { (bytes : List ℕ) (m : Message) → Spells m bytes → IsFrame bytes }
{}

/// Messages of the same frames have the same texts.
pub fn text_is_unique()
    ensures { (ms ns : List Message) (frames : List (List ℕ)) → AreMessages ms frames → AreMessages ns frames → text_of ms ≡ text_of ns }
{}

/// A known input has one ending of those that tell what it is: it is messages, a frame of it is none, or it is too long.
pub fn input_ends_once()
    ensures { (e f : Shown) (limit : ℕ) (bytes : List ℕ) (l k o p n m : Option (List ℕ)) → IsVerdict e → IsVerdict f
        → ShowEnds limit (Ok e) (Some bytes) l o n → ShowEnds limit (Ok f) (Some bytes) k p m → e ≡ f }
{}

/// A known input has one ending of `make` of those that tell what it is: it is the text of messages, it is the text of none,
/// or it is too long.
pub fn make_ends_once()
    ensures { (e f : Made) (limit : ℕ) (bytes : List ℕ) (l k o p n m : Option (List ℕ)) → IsTold e → IsTold f
        → MakeEnds limit (Ok e) (Some bytes) l o n → MakeEnds limit (Ok f) (Some bytes) k p m → e ≡ f }
{}
