// A text cut at an ASCII character.
ghost use Rattle.std.specs.Prelude.{◌≡◌, ◌<◌, length, IfOk, IfSome, option_map};
ghost use Rattle.field_forms.specs.Cuts.{cut_at, pieces_at};

use field_values::memory::Memory;
use field_values::names::Names;
use field_values::text::Text;
use std::alloc::Global;

/// The parts before and after the first such character.
pub(crate) fn cut_at(text: &str, mark: char) -> Option<(&str, &str)>
    requires { mark < 128 }
    ensures parts { option_map (λ parts. (parts.0.now, parts.1.now)) result ≡ cut_at mark text.now }
    ensures shorter { IfSome result (λ parts. length parts.1.now < length text.now) }
{
    text.split_once(mark)
}

/// The pieces between such characters.
#[tactic(auto, using(crate::proofs::Cutting::cut_none))]
pub(crate) fn pieces_at(alloc: Global, text: &str, mark: char) -> Result<Names, Memory>
    requires { mark < 128 }
    ensures { IfOk result (λ pieces. pieces ≡ pieces_at mark text.now) }
{
    let mut pieces = Names::new(alloc);
    let mut left = text;
    while let Some((piece, rest)) = cut_at(left, mark) {
        pieces.push(Text::copy_of(alloc, piece)?)?;
        left = rest;
    }
    pieces.push(Text::copy_of(alloc, left)?)?;
    Ok(pieces)
}
