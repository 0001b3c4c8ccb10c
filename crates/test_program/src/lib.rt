//! Tests of subcommands, on a database in memory and over loopback. There is nothing here
//! but tests: a crate with tests is proved twice, and so the crates below are proved once.
#![tactic(auto)]

#[cfg(test)]
mod failing;
#[cfg(test)]
mod hosted;
#[cfg(test)]
mod loopback;
#[cfg(test)]
mod meeting;
#[cfg(test)]
mod rooms;
#[cfg(test)]
mod schemas;
#[cfg(test)]
mod scripts;
