// What the definition of a command says, for the crates that stand on it.
ghost use Rattle.std.specs.Prelude.{◌≡◌, ◌<◌, ◌≤◌, ◌^◌, ◌↔◌, ◌∷◌, [], ℕ, List, Some, None, codes, decimal};
ghost use Rattle.std.specs.Str.{str_to_ascii_uppercase};
ghost use Rattle.fc_base.specs.Hex.{hex};
ghost use Rattle.fc_base.specs.Ids.{IsCe};
ghost use Rattle.fc_words.specs.Commands.{IsControl, IsElement, IsGen, command_of};
ghost use Rattle.fc_words.specs.Numbers.{decimal_up_to, ce_of};
ghost use Rattle.fc_words.specs.declared.commands.Command.TheVariants.{Control, Gen, Show, Make, World, Element};

/// A word spells a number in decimal exactly where it is what is written for that number, and the number is in its range.
pub fn decimal_words()
    ensures { (most n : ℕ) (word : List ℕ) → most < 2 ^ 32 → decimal_up_to most word ≡ Some n ↔ (word ≡ decimal n) × ((1 ≤ n) × (n ≤ most)) }
{}

/// A word spells the ID of a control element exactly where in upper case it is the eight digits of that ID. Words that differ
/// in their case alone mean the same.
pub fn controller_words()
    ensures spelled { (n : ℕ) (word : List ℕ) → ce_of word ≡ Some n ↔ IsCe n × (str_to_ascii_uppercase word ≡ hex 8 n) }
    ensures either_case { (word other : List ℕ) → str_to_ascii_uppercase word ≡ str_to_ascii_uppercase other → ce_of word ≡ ce_of other }
{}

/// The one word `show` means `show`, and no other words do.
pub fn words_of_show()
    ensures { (words : List (List ℕ)) → command_of words ≡ Some Show ↔ words ≡ codes "show" ∷ [] }
{}

/// The one word `make` means `make`, and no other words do.
pub fn words_of_make()
    ensures { (words : List (List ℕ)) → command_of words ≡ Some Make ↔ words ≡ codes "make" ∷ [] }
{}

/// The one word `world` means `world`, and no other words do.
pub fn words_of_world()
    ensures { (words : List (List ℕ)) → command_of words ≡ Some World ↔ words ≡ codes "world" ∷ [] }
{}

/// Words mean `gen` with a number exactly where they are its name and what is written for the number, and it is from 1 to 1,000.
pub fn words_of_gen()
    ensures { (words : List (List ℕ)) (n : ℕ) → command_of words ≡ Some (Gen n) ↔ IsGen words n }
{}

/// Words mean `element` with some values exactly where they are its name and what is written for these values.
pub fn words_of_element()
    ensures { (words : List (List ℕ)) (fe ce : ℕ) (address : List ℕ) (connections turns : ℕ) → command_of words ≡ Some (Element fe ce address connections turns) ↔ IsElement words fe ce address connections turns }
{}

/// Words mean `control` with some values exactly where they are its name and what is written for these values.
pub fn words_of_control()
    ensures { (words : List (List ℕ)) (ce : ℕ) (rounds : List ℕ) (connections turns : ℕ) (addresses : List (List ℕ)) → command_of words ≡ Some (Control ce rounds connections turns addresses) ↔ IsControl words ce rounds connections turns addresses }
{}
