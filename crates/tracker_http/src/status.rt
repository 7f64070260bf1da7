// The statuses of replies.
ghost use Rattle.std.specs.Prelude.{◌≡◌};
ghost use Rattle.tracker_http.specs.Response.{IsStatus};
ghost use Rattle.tracker_http.specs.Statuses.{cause_status, refusal_status, status_of};

use tracker_calls::{Cause, Refusal, Reply};

/// The status of the response that tells a reply.
pub fn status_of(reply: &Reply) -> u16
    ensures status { result ≡ status_of reply.now }
    ensures told { IsStatus result }
{
    match reply {
        Reply::Ok(_) => 200,
        Reply::Refused(refusal) => refusal_status(refusal),
    }
}

fn refusal_status(refusal: &Refusal) -> u16
    ensures status { result ≡ refusal_status refusal.now }
    ensures told { IsStatus result }
{
    match refusal {
        Refusal::Cause(cause) => cause_status(cause),
        Refusal::Keeper => 503,
        Refusal::Memory => 507,
    }
}

fn cause_status(cause: &Cause) -> u16
    ensures status { result ≡ cause_status cause.now }
    ensures told { IsStatus result }
{
    match cause {
        Cause::Form { .. } => 400,
        Cause::Forbidden { .. } => 403,
        Cause::Unknown { .. } => 404,
        Cause::NoRoom { .. }
        | Cause::SprintIs { .. }
        | Cause::Earlier { .. }
        | Cause::BalanceIs(_)
        | Cause::ExternalIs { .. } => 409,
        Cause::Condition { .. }
        | Cause::Validator { .. }
        | Cause::Unfit { .. }
        | Cause::Query { .. }
        | Cause::Limit { .. } => 422,
    }
}
