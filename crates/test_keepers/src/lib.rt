//! Tests at written examples, of the crates below, by calls that no script makes. There is nothing
//! here but tests: a crate with tests is proved twice, and so the crates below are proved once.
#![tactic(auto)]

#[cfg(test)]
mod bad_rows;
#[cfg(test)]
mod calls;
#[cfg(test)]
mod desks;
#[cfg(test)]
mod dumps;
#[cfg(test)]
mod keepers;
#[cfg(test)]
mod many;
#[cfg(test)]
mod passing;
#[cfg(test)]
mod paths;
#[cfg(test)]
mod records;
#[cfg(test)]
mod rooms;
#[cfg(test)]
mod walks;
