// Statuses with their categories.
ghost use Rattle.std.specs.Prelude.{◌≡◌, IfOk, map};
ghost use Rattle.fields.specs.SetupParts.{names};
ghost use Rattle.told_setups.specs.Told.{status_name, told_status};

use fields::{ChoiceNo, Memory, Setup, Status};
use std::alloc::Global;
use tracker_calls::{ToldStatus, ToldStatuses, ToldText};

/// What a status is called; an empty text where there is none of that number.
pub fn status_name(setup: &Setup, status: ChoiceNo) -> &str
    ensures { result.now ≡ status_name (names setup.now) status }
{
    match setup.status.as_slice().get(usize::from(status.0)) {
        Some(found) => found.name.as_str(),
        None => "",
    }
}

/// The statuses with their categories.
pub fn told_statuses(alloc: Global, statuses: &[Status]) -> Result<ToldStatuses, Memory>
    ensures { IfOk result (λ told. told ≡ map told_status statuses.now) }
{
    let mut told = ToldStatuses::new(alloc);
    for status in statuses {
        told.push(told_status(alloc, status)?)?;
    }
    Ok(told)
}

fn told_status(alloc: Global, status: &Status) -> Result<ToldStatus, Memory>
    ensures { IfOk result (λ told. told ≡ told_status status.now) }
{
    let name = ToldText::copy_of(alloc, status.name.as_str())?;
    Ok(ToldStatus {
        category: status.category,
        status: name,
    })
}
