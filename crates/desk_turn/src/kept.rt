ghost use Rattle.std.specs.Prelude.{◌≡◌, true, Bool, List, [], ◌∷◌, ◌++◌, OnErr};
ghost use Rattle.desk_turn.specs.Answer.{IfTold, IfNothing};
ghost use Rattle.desk_turn.specs.declared.entry.Entry.{Entry};

/// There was no memory.
#[derive(Clone, Copy, PartialEq, Eq)]
pub struct Memory;

/// A value that is called through `enter` alone, and keeps the history of these calls.
///
/// The history is for proofs: a value need not store it in this form, or at all. What a program
/// wants to read back after a turn it stores itself, and ties to `history` by a fact of its type.
pub trait Kept {
    /// What is asked of the value.
    type Ask;

    /// What it answers.
    type Told;

    /// What the value began as: plain data, which no call changes.
    type Origin;

    /// All that its callers can see of the value now.
    type State;

    ghost origin: { Self → Self.Origin };

    ghost state: { Self → Self.State };

    // The calls so far, the first one first.
    ghost history: { Self → List (Entry Self.Ask Self.Told) };

    // Only a look may be left unanswered.
    ghost is_look: { Self.Ask → Bool };

    /// Makes one call for the caller of this number. `None` is the answer to a look that finds
    /// nothing. After `None` and after `Memory` the value is as before.
    fn enter(&mut self, caller: u32, ask: &Self::Ask) -> Result<Option<Self::Told>, Memory>
        ensures origin { origin self.new ≡ origin self.old }
        ensures told { IfTold result (λ told. history self.new
            ≡ history self.old ++ record { by = caller; ask = ask.now; told = told } ∷ []) }
        ensures look { IfNothing result (is_look ask.now ≡ true) }
        ensures nothing { IfNothing result
            ((history self.new ≡ history self.old) × (state self.new ≡ state self.old)) }
        ensures memory { OnErr result ((history self.new ≡ history self.old)
            × (state self.new ≡ state self.old)) };
}
