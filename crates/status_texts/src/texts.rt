// The texts that aren't always the same.
ghost use Rattle.std.specs.Prelude.{◌≡◌, IfOk};
ghost use Rattle.status_texts.specs.Texts.{kept_line, named_line, setup_line};

use field_values::{Memory, Text};
use setup_drafts::SetupFault;
use std::alloc::Global;

/// Which row is bad.
pub(crate) fn kept_line(alloc: Global, kind: u8, no: u64) -> Result<Text, Memory>
    ensures { IfOk result (λ text. text ≡ kept_line kind no) }
{
    Ok(Text::of(format!(in alloc; "kept {kind} {no}\n")?))
}

/// Why a text is no setup.
pub(crate) fn setup_line(alloc: Global, fault: &SetupFault) -> Result<Text, Memory>
    ensures { IfOk result (λ text. text ≡ setup_line fault.now) }
{
    let kind = fault.kind();
    match fault.name() {
        Some(name) => named_line(alloc, kind, name),
        None => Ok(Text::of(format!(in alloc; "setup {kind}\n")?)),
    }
}

fn named_line(alloc: Global, kind: u8, name: &str) -> Result<Text, Memory>
    ensures { IfOk result (λ text. text ≡ named_line kind name.now) }
{
    Ok(Text::of(format!(in alloc; "setup {kind} {name}\n")?))
}
