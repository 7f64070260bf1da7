//! Tests of runs and connections in which one call of the outside fails: each call number in turn, until a run meets no failure.
#![tactic(auto)]

#[cfg(test)]
mod commands;
#[cfg(test)]
mod connections;
#[cfg(test)]
mod fakes;
#[cfg(test)]
mod heads;
#[cfg(test)]
mod single;
#[cfg(test)]
mod stories;
