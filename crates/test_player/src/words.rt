//! Texts that grow, and how they are compared.

use std::alloc::AllocError;
use std::fmt::Write;
use std::test::Fail;

/// Tests that what was answered about something is what was expected.
pub fn agree(about: &str, told: &str, wanted: &str) -> Result<(), Fail> {
    if told == wanted {
        return Ok(());
    }
    Err(Fail::new(format_args!("{about} => {told}, where wanted is {wanted}")))
}

/// Adds a word.
pub fn push(told: &mut String, word: &str) -> Result<(), Fail> {
    Ok(told.push_str(word)?)
}

/// Adds words.
pub fn push_all(told: &mut String, words: &[&str]) -> Result<(), Fail> {
    for word in words {
        told.push_str(word)?;
    }
    Ok(())
}

/// Adds a number.
pub(crate) fn push_number(told: &mut String, number: u64) -> Result<(), Fail> {
    Ok(written(told, number)?)
}

fn written(told: &mut String, number: u64) -> Result<(), AllocError> {
    write!(told, "{number}")
}

/// Adds a moment.
pub(crate) fn push_moment(told: &mut String, moment: i64) -> Result<(), Fail> {
    Ok(written_moment(told, moment)?)
}

fn written_moment(told: &mut String, moment: i64) -> Result<(), AllocError> {
    write!(told, "{moment}")
}

/// The first word, and what follows it.
pub(crate) fn cut(text: &str) -> (&str, &str) {
    text.split_once(" ").unwrap_or((text, ""))
}
