// What can run operations and go back.
ghost use Rattle.std.specs.Prelude.{◌≡◌, ◌≢◌, ◌+◌, ℕ, List, ◌∷◌, length, drop, IfOk, OnOk, OnErr};

use fc_base::{Code, Memory};

/// Something that operations change, and that can go back to a state that was marked.
pub trait Runner {
    /// An operation.
    type Op;

    /// A mark that stands.
    type Mark;

    /// What the operations change.
    ghost State: { Type 0 };

    /// The state now.
    ghost state: { Self → State };

    /// The states at the marks that stand, the newest first.
    ghost marked: { Self → List State };

    /// How many marks stand below this one.
    ghost below: { Self.Mark → ℕ };

    /// The state and the code that an operation gives at a state.
    ghost effect: { State → Self.Op → State × ℕ };

    /// Marks the state. After an `Err` no mark was made.
    fn mark(&mut self) -> Result<Self::Mark, Memory>
        ensures place { IfOk result (λ mark. below mark ≡ length (marked self.old)) }
        ensures ok { OnOk result (marked self.new ≡ state self.old ∷ marked self.old) }
        ensures err { OnErr result (marked self.new ≡ marked self.old) }
        ensures state { state self.new ≡ state self.old };

    /// Applies an operation. After an `Err` the state may be any; the marks stand.
    fn apply(&mut self, op: &Self::Op) -> Result<Code, Memory>
        ensures effect { IfOk result (λ code. (state self.new, code) ≡ effect (state self.old) op.now) }
        ensures marks { marked self.new ≡ marked self.old };

    /// Goes back to the newest mark, which ends.
    fn rollback(&mut self, mark: Self::Mark)
        requires { below mark + 1 ≡ length (marked self.old) }
        ensures { state self.new ∷ marked self.new ≡ marked self.old };

    /// Ends the newest mark, and keeps the state.
    fn release(&mut self, mark: Self::Mark)
        requires { below mark + 1 ≡ length (marked self.old) }
        ensures state { state self.new ≡ state self.old }
        ensures marks { marked self.new ≡ drop 1 (marked self.old) };

    /// An operation that is refused changes nothing.
    ghost refused: { (s : State) (op : Self.Op) → (effect s op).1 ≢ 0 → (effect s op).0 ≡ s };
}
