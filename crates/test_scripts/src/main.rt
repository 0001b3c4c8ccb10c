//! Plays scripts: `test_scripts WORD ..`, each word a folder, all of whose files are scripts, or a
//! script.
//!
//! A script is played over each thing that its lines `over ..` name. What failed is told on
//! standard error, in a line with the file, the line in it, and what was answered and wanted. The
//! counts are told on standard output, and the status is 1 where anything failed.
#![tactic(auto)]

mod counts;
mod files;
mod grounds;
mod lines;
mod memory;
mod outage;
mod playing;
mod store;

use crate::counts::Counts;
use crate::files::play_words;
use std::env;
use std::process::ExitCode;
use std::test::Fail;

fn main(rt: HostRuntime) -> Result<ExitCode, Fail> {
    let words: Vec<String> = env::args(&rt)?.skip(1).collect(rt.alloc())?;
    play(&rt, words.as_slice())
}

fn play(rt: &HostRuntime, words: &[String]) -> Result<ExitCode, Fail> {
    let mut counts = Counts::none();
    play_words(rt, words, &mut counts)?;
    counts.tell(rt)
}
