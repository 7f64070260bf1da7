//! Tests of setups: their lists of names and what is looked up in them; of issues as they are opened; and of the changes that a
//! transition plans.
#![tactic(auto)]

#[cfg(test)]
mod issues;
#[cfg(test)]
mod large_setup;
#[cfg(test)]
mod name_lists;
#[cfg(test)]
mod new_tracker;
#[cfg(test)]
mod transitions;
#[cfg(test)]
mod values;
