//! Tests of connections at written examples, in memory and over a store. There is nothing here but
//! tests: a crate with tests is proved twice, and so the crates below are proved once.
#![tactic(auto)]

#[cfg(test)]
mod answering;
#[cfg(test)]
mod cutting;
#[cfg(test)]
mod failing;
#[cfg(test)]
mod messages;
#[cfg(test)]
mod rooms;
#[cfg(test)]
mod streams;
#[cfg(test)]
mod waiting;
