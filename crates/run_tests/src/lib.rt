//! Tests of whole runs over sources and sinks in memory, and of clocks in memory.
#![tactic(auto)]

#[cfg(test)]
mod clocks;
#[cfg(test)]
mod runs;
#[cfg(test)]
mod servers;
