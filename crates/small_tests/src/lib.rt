//! Tests of days, local time and the date terms of queries, of short lists, of saved filters and boards, of ranks, their order, its
//! balance, of sprints, and of a turn that threads share.
#![tactic(auto)]

#[cfg(test)]
mod dates;
#[cfg(test)]
mod filters;
#[cfg(test)]
mod lists;
#[cfg(test)]
mod ranking;
#[cfg(test)]
mod turns;
