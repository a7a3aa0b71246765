// Laws on the numbers in what a master says.
ghost use Rattle.std.specs.Prelude.{◌≡◌, ◌≤◌, ℕ, true, List, length, Some, None};
ghost use Rattle.std.specs.List.{AllByRecursion};
ghost use Rattle.fc_base.specs.Ids.{Txn};
ghost use Rattle.fc_protocol.specs.MasterMachine.{Master, again, begin_refusal, begins, finish, forget_refusal, forgets, gives_up, heard, new_master, plain_refusal, sends_one};
ghost use Rattle.fc_protocol.specs.Messages.{is_epoch, Message, Plain};
ghost use Rattle.fc_protocol.specs.Scopes.{Scope};
ghost use Rattle.fc_numbering.specs.Numbering.{AreInstances, AreNumbered, IsInNumbers, IsWord, SpeaksNumbers, TellsNumbers};

/// A life whose epoch is one begins in numbers of 32 bits.
pub fn masters_begin_in_numbers()
    ensures { (e : ℕ) (es : List ℕ) → is_epoch e ≡ true → IsInNumbers (new_master e es) }
{}

/// Whatever a master in numbers of 32 bits hears or is asked to do, all that it says then is in such numbers, and it is so afterwards: when it goes on; when it hears a message that tells of
/// transactions in such numbers; when it begins a transaction with participants and scopes in such numbers, each scope of at most 4,096 instances, makes a plain change or tells its elements to forget, where that is not refused; and
/// when it gives a transaction up. So is what waits at an element, when it is sent again.
pub fn masters_stay_in_numbers()
    ensures go_on { (k : ℕ) (m : Master) → IsInNumbers m → SpeaksNumbers (finish k m) }
    ensures hear { (k : ℕ) (m : Master) (p : ℕ) (x : Message) → TellsNumbers x → IsInNumbers m → SpeaksNumbers (finish k (heard m p x)) }
    ensures resend { (k : ℕ) (m : Master) (p : ℕ) → IsInNumbers m → AreNumbered (again k p (m.at p).waits) }
    ensures begin { (k : ℕ) (m : Master) (ps : List ℕ) (changes : ℕ → ℕ) (scopes : ℕ → Scope) → begin_refusal m ps changes scopes ≡ None
        → AllByRecursion IsWord ps → ((p : ℕ) → AreInstances (scopes p)) → ((p : ℕ) → length (scopes p) ≤ 4096) → IsInNumbers m → SpeaksNumbers (finish k (begins m ps changes scopes)) }
    ensures plain { (k : ℕ) (m : Master) (p : ℕ) → plain_refusal m p ≡ None → IsInNumbers m → SpeaksNumbers (sends_one k m p (Some Plain)) }
    ensures give_up { (k : ℕ) (m : Master) (x : Txn) → IsInNumbers m → SpeaksNumbers (finish k (gives_up m x)) }
    ensures forget { (k : ℕ) (m : Master) → forget_refusal m ≡ None → IsInNumbers m → SpeaksNumbers (finish k (forgets m)) }
{}
