ghost use Rattle.std.specs.Prelude.{◌≡◌};

use field_values::Moment;
use std::marker::Model;

/// Whether a query holds of an issue, and until when that stays. It is made by [`evaluate`](crate::evaluate) alone.
#[derive(Clone, Copy)]
pub struct Verdict {
    holds: bool,
    until: Option<Moment>,
}

impl Model for Verdict {
    ghost use Rattle.jql_eval.specs.Told.{Told};

    ghost Value = { Told };

    ghost view = { λ v. record { holds = v.holds; until = v.until } };

    ghost inverse = { λ t. record { holds = t.holds; until = t.until } };
}

impl Verdict {
    pub(crate) fn new(holds: bool, until: Option<Moment>) -> Verdict
        ensures { result ≡ record { holds = holds; until = until } }
    {
        Verdict { holds, until }
    }

    /// Whether the query holds of the issue at the moment that was asked for.
    pub fn holds(&self) -> bool
        ensures { result ≡ self.now.holds }
    {
        self.holds
    }

    /// A later moment before which that stays, and at which it may change. `None` where it stays for good.
    pub fn until(&self) -> Option<Moment>
        ensures { result ≡ self.now.until }
    {
        self.until
    }
}
