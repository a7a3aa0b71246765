// Laws of texts.
ghost use Rattle.std.specs.Prelude.{◌≡◌, ◌↔◌, ◌⊎◌, ◌∷◌, [], ℕ, List, Ok, Err, true};
ghost use Rattle.std.specs.List.{flat_map, AllByRecursion};
ghost use Rattle.fc_wire.specs.Bytes.{AreBytes};
ghost use Rattle.fc_path.specs.declared.oper.Select.{Select};
ghost use Rattle.fc_msg.specs.Messages.{Spells, message_fits};
ghost use Rattle.fc_msg.specs.declared.message.Message.{Message};
ghost use Rattle.fc_text.specs.FirstMisfit.{FirstMisfit, FitsMessages, FitsSelects, IsWithin, TooLongAt};
ghost use Rattle.fc_text.specs.Text.{message_text};
ghost use Rattle.fc_text.specs.TextGrammar.{HasText, SpellsSelects, SpellsText};
ghost use Rattle.fc_lines.specs.TextPlaces.{TextPlace};
ghost use Rattle.fc_text.specs.TextReading.{body_in, text_in};

/// Reading gives messages exactly where the bytes are a text of them, and no bytes are a text of two lists of messages.
pub fn text_is_its_messages()
    ensures same { (ms : List Message) (bytes : List ℕ) → (text_in bytes ≡ Ok ms) ↔ SpellsText ms bytes }
    ensures one { (ms ns : List Message) (bytes : List ℕ) → SpellsText ms bytes → SpellsText ns bytes → ms ≡ ns }
{}

/// Reading gives the LFBselects of a Config exactly where the bytes are a text of them, and no bytes are a text of two
/// lists of them.
pub fn text_is_its_selects()
    ensures same { (ss : List Select) (bytes : List ℕ) → (body_in bytes ≡ Ok ss) ↔ SpellsSelects ss bytes }
    ensures one { (ss rs : List Select) (bytes : List ℕ) → SpellsSelects ss bytes → SpellsSelects rs bytes → ss ≡ rs }
{}

/// What is printed of messages is a text of them, and no others have a text than those of which that is said.
pub fn shown_text_is_spelled()
    ensures one { (m : Message) → HasText m → SpellsText (m ∷ []) (message_text m) }
    ensures all { (ms : List Message) → AllByRecursion HasText ms → SpellsText ms (flat_map message_text ms) }
    ensures only { (ms : List Message) (bytes : List ℕ) → SpellsText ms bytes → AllByRecursion HasText ms }
{}

/// What is printed of messages is read as these messages.
pub fn shown_text_is_read()
    ensures one { (m : Message) → HasText m → text_in (message_text m) ≡ Ok (m ∷ []) }
    ensures all { (ms : List Message) → AllByRecursion HasText ms → text_in (flat_map message_text ms) ≡ Ok ms }
{}

/// A message that bytes spell has a text wherever it can be encoded; so what is decoded and printed is read as itself.
pub fn decoded_text_is_read()
    ensures text { (m : Message) (bytes : List ℕ) → AreBytes bytes → Spells m bytes → message_fits m ≡ true → HasText m }
    ensures read { (m : Message) (bytes : List ℕ) → AreBytes bytes → Spells m bytes → message_fits m ≡ true → text_in (message_text m) ≡ Ok (m ∷ []) }
{}

/// A text is refused at the first place at which nothing fits: what stands before it begins a text, and no text has the
/// same before it and at it. Or it is refused at the first line of a message that can't be encoded. The place stands in
/// the text, or right behind a line or the text.
pub fn text_is_refused_at_its_first_misfit()
    ensures text { (bytes : List ℕ) (p : TextPlace) → text_in bytes ≡ Err p → FirstMisfit FitsMessages p bytes ⊎ TooLongAt p bytes }
    ensures body { (bytes : List ℕ) (p : TextPlace) → body_in bytes ≡ Err p → FirstMisfit FitsSelects p bytes }
    ensures within { (bytes : List ℕ) (p : TextPlace) → (text_in bytes ≡ Err p) ⊎ (body_in bytes ≡ Err p) → IsWithin p bytes }
{}

/// A text is refused at each such place within it, so it has one at most: at its first misfit, if no message that can't be encoded
/// stands behind ones that can, and else at the first line of that message.
pub fn first_misfit_is_where_text_is_refused()
    ensures text { (bytes : List ℕ) (p : TextPlace) → IsWithin p bytes → FirstMisfit FitsMessages p bytes → ((q : TextPlace) → TooLongAt q bytes → ⊥) → text_in bytes ≡ Err p }
    ensures long { (bytes : List ℕ) (p : TextPlace) → TooLongAt p bytes → text_in bytes ≡ Err p }
    ensures body { (bytes : List ℕ) (p : TextPlace) → IsWithin p bytes → FirstMisfit FitsSelects p bytes → body_in bytes ≡ Err p }
{}
