// Copies of causes.
ghost use Rattle.std.specs.Prelude.{◌≡◌, IfOk, option_map};
ghost use Rattle.tracker_calls.specs.declared.cause.Cause.TheVariants as causes;

use crate::cause::{Cause, Thing};
use crate::reply_copy::text_if_any;
use field_values::{Memory, Permission, Text};
use std::alloc::Global;

impl Cause {
    /// Another cause of the same.
    pub fn copy(&self, alloc: Global) -> Result<Self, Memory>
        ensures { IfOk result (λ r. r ≡ self.now) }
    {
        match self {
            Cause::Form { member } => {
                let member = member.copy(alloc)?;
                Ok(Cause::Form { member })
            }
            Cause::Unknown { kind, name } => copy_unknown(alloc, *kind, name),
            Cause::Forbidden {
                permission,
                project,
            } => copy_forbidden(alloc, *permission, project.as_ref()),
            Cause::Condition { index } => Ok(Cause::Condition { index: *index }),
            Cause::Validator { index } => Ok(Cause::Validator { index: *index }),
            Cause::Unfit { field } => {
                let field = field.copy(alloc)?;
                Ok(Cause::Unfit { field })
            }
            Cause::Query { kind, place } => Ok(Cause::Query {
                kind: *kind,
                place: *place,
            }),
            Cause::NoRoom { low, high } => copy_no_room(alloc, low.as_ref(), high.as_ref()),
            Cause::SprintIs { state } => Ok(Cause::SprintIs { state: *state }),
            Cause::Limit { limit } => Ok(Cause::Limit { limit: *limit }),
            Cause::Earlier { kept } => Ok(Cause::Earlier { kept: *kept }),
            Cause::BalanceIs(kept) => Ok(Cause::BalanceIs(*kept)),
            Cause::ExternalIs { external, kept } => copy_external_is(alloc, external, kept),
        }
    }
}

fn copy_unknown(alloc: Global, kind: Thing, name: &Text) -> Result<Cause, Memory>
    ensures { IfOk result (λ r. r ≡ causes.Unknown kind name.now) }
{
    let name = name.copy(alloc)?;
    Ok(Cause::Unknown { kind, name })
}

fn copy_forbidden(
    alloc: Global,
    permission: Permission,
    project: Option<&Text>,
) -> Result<Cause, Memory>
    ensures { IfOk result (λ r. r
        ≡ causes.Forbidden permission (option_map (λ t. t.now) project.entry)) }
{
    let project = text_if_any(alloc, project)?;
    Ok(Cause::Forbidden {
        permission,
        project,
    })
}

fn copy_no_room(alloc: Global, low: Option<&Text>, high: Option<&Text>) -> Result<Cause, Memory>
    ensures { IfOk result (λ r. r ≡ causes.NoRoom (option_map (λ t. t.now) low.entry)
        (option_map (λ t. t.now) high.entry)) }
{
    let low = text_if_any(alloc, low)?;
    let high = text_if_any(alloc, high)?;
    Ok(Cause::NoRoom { low, high })
}

fn copy_external_is(alloc: Global, external: &Text, kept: &Text) -> Result<Cause, Memory>
    ensures { IfOk result (λ r. r ≡ causes.ExternalIs external.now kept.now) }
{
    let external = external.copy(alloc)?;
    let kept = kept.copy(alloc)?;
    Ok(Cause::ExternalIs { external, kept })
}
