//! Tests with threads.
#![tactic(auto)]

#[cfg(test)]
mod beside;
#[cfg(test)]
mod desks;
#[cfg(test)]
mod gates;
#[cfg(test)]
mod issues;
#[cfg(test)]
mod loopback;
#[cfg(test)]
mod numbers;
#[cfg(test)]
mod rounds;
#[cfg(test)]
mod served;
#[cfg(test)]
mod servers;
#[cfg(test)]
mod sums;
#[cfg(test)]
mod workers;
