//! What a query means: when it holds of an issue, over the issue's whole history, and at which moments that can change.
//! There are definitions and laws here, and no code that runs.
#![tactic(auto)]

mod laws;

pub use laws::{
    critical_by_the_calendar, denials, negations, one_sprint_differs, only_the_own_sprint_matters,
    past_of_some_span, truth_changes_at_critical_moments,
};
