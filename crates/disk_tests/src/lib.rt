//! Tests of runs over databases whose disks stop, or that refuse a commit.
#![tactic(auto)]

#[cfg(test)]
mod day;
#[cfg(test)]
mod disks;
#[cfg(test)]
mod hindered;
#[cfg(test)]
mod runs;
