//! Tests of the keeper over SQLite, on databases in memory and on disks in memory that stop at a call.
#![tactic(auto)]

#[cfg(test)]
mod ends;
#[cfg(test)]
mod foreign;
#[cfg(test)]
mod operations;
#[cfg(test)]
mod stops;
