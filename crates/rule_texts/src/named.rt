// A name behind a word.
ghost use Rattle.std.specs.Prelude.{◌≡◌, ◌++◌, IfOk};

use field_values::memory::Memory;
use field_values::text::Text;
use std::alloc::Global;

/// The word, which ends with a colon, and the name.
pub(crate) fn named(alloc: Global, word: &str, name: &str) -> Result<Text, Memory>
    ensures { IfOk result (λ text. text ≡ word.now ++ name.now) }
{
    Ok(Text::of(format!(in alloc; "{word}{name}")?))
}
