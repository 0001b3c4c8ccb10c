//! Tests at written examples, of the crates below. There is nothing here but tests: a crate with
//! tests is proved twice, and so the crates below are proved once.
#![tactic(auto)]

#[cfg(test)]
mod checks;
#[cfg(test)]
mod csv_texts;
#[cfg(test)]
mod entries;
#[cfg(test)]
mod list_texts;
#[cfg(test)]
mod rulings;
#[cfg(test)]
mod words;
