// What answers lines.
ghost use Rattle.std.specs.Prelude.{◌≡◌, List, ℕ, IfOk, OnOk, OnErr};
ghost use Rattle.request_lines.specs.Run.{IsLooked};

use std::alloc::AllocError;

/// What came of looking at a line.
#[derive(Drop)]
pub enum Looked<C: Drop> {
    /// It is answered, and that changes nothing.
    Answered,

    /// It asks for this change, which isn't made yet.
    Asks(C),
}

/// What answers one line after another, in two beats: it first looks at a line, which changes nothing, and then makes the change
/// that the line asks for, if it asks for one. So whoever has lines answered knows before each change that it comes.
pub trait Responder {
    /// What a line may ask for.
    type Change: Drop;

    /// In this state, the line may be answered by this text, and lead to that state.
    ghost answers: { Self → List ℕ → List ℕ → Self → Type 0 };

    /// The line asks for this change.
    ghost asks: { List ℕ → Self.Change → Type 0 };

    /// Puts the answer to a line, which may be empty, in place of what `answer` held, or says what change the line asks for.
    /// Where there is no memory for either, nothing is known but that nothing changed.
    fn look(
        &mut self,
        line: &[u8],
        answer: &mut Vec<u8>,
    ) -> Result<Looked<Self::Change>, AllocError>
        ensures looked { IfOk result (IsLooked (answers self.old line.now answer.new.items self.old)
            (asks line.now)) }
        ensures same { self.new ≡ self.old };

    /// Makes the change that a line asks for, and puts the answer in place of what `answer` held. Where there is no memory for
    /// its text, the change is made all the same, and its text is not known.
    fn make(&mut self, change: Self::Change, answer: &mut Vec<u8>) -> Result<(), AllocError>
        ensures ok { (line : List ℕ) → asks line change
            → OnOk result (answers self.old line answer.new.items self.new) }
        ensures err { (line : List ℕ) → asks line change
            → OnErr result ((text : List ℕ) × answers self.old line text self.new) };
}
