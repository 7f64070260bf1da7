//! Tests of the words beside `run`: dumps and what restores them, and setups that are amended.
#![tactic(auto)]

#[cfg(test)]
mod amends;
#[cfg(test)]
mod backups;
