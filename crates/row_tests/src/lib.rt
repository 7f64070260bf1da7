//! Tests of keepers in memory, and of rows: bodies that are read and written back, and texts that are nearly bodies.
#![tactic(auto)]

#[cfg(test)]
mod bodies;
#[cfg(test)]
mod keepers;
#[cfg(test)]
mod near_misses;
#[cfg(test)]
mod rows;
#[cfg(test)]
mod setups;
