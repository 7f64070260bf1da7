// The inputs of an edit or a transition.
ghost use Rattle.std.specs.Prelude.{◌≡◌, ◌∷◌, [], option_map};
ghost use Rattle.fields.specs.SetupParts.{parts, names_in};
ghost use Rattle.workflow.specs.Inputs.{is_refused, least_with, refused_input};

use change_history::Change;
use fields::{FieldNo, Setup};

fn is_refused(setup: &Setup, input: &Change) -> bool
    ensures { result ≡ is_refused (names_in (parts setup.now)) input.now }
{
    input.field == FieldNo::STATUS || !setup.fits(input.field, &input.to)
}

fn lesser(first: Option<u16>, no: u16) -> u16
    ensures { Some result ≡ least_with first (no ∷ []) }
{
    match first {
        Some(least) => least.min(no),
        None => no,
    }
}

#[tactic(auto, unfolding(crate::specs::Inputs::refused_input))]
fn least_refused(setup: &Setup, inputs: &[Change]) -> Option<u16>
    ensures { result ≡ refused_input (names_in (parts setup.now)) inputs.now }
{
    let mut first = None;
    for input in inputs {
        if is_refused(setup, input) {
            first = Some(lesser(first, input.field.0));
        }
    }
    first
}

/// The first field, by number, whose input is of the status or doesn't fit; `None` exactly where there is none.
pub fn refused_input(setup: &Setup, inputs: &[Change]) -> Option<FieldNo>
    ensures { option_map (λ no. no.0) result
        ≡ refused_input (names_in (parts setup.now)) inputs.now }
{
    match least_refused(setup, inputs) {
        Some(no) => Some(FieldNo(no)),
        None => None,
    }
}
