//! What the program has to do.

use std::test::Fail;

/// The words of the command line.
#[derive(Drop)]
pub struct Job<'a> {
    pub suite: &'a str,
    /// How often each workload is done at most.
    pub rounds: u32,
    /// How many objects stand below the folder that is changed.
    pub below: usize,
    /// How many objects the room has beside those; for input, how many lines there are.
    pub objects: usize,
    /// Which workloads are done: those whose titles begin with this.
    pub only: &'a str,
}

impl Job<'_> {
    /// Whether the workload of this title is done.
    pub fn wants(&self, title: &str) -> bool {
        title.starts_with(self.only)
    }
}

/// The job of these words.
pub fn job_of(words: &[String]) -> Result<Job<'_>, Fail> {
    match words {
        [suite, rounds, below, objects] => sized(suite, rounds, below, objects, ""),
        [suite, rounds, below, objects, only] => {
            sized(suite, rounds, below, objects, only.as_str())
        }
        _ => Err(Fail::new("wanted are a suite, a count of rounds and two of objects")),
    }
}

fn sized<'a>(
    suite: &'a String,
    rounds: &String,
    below: &String,
    objects: &String,
    only: &'a str,
) -> Result<Job<'a>, Fail> {
    Ok(Job {
        suite: suite.as_str(),
        rounds: rounds.as_str().parse::<u32>()?,
        below: below.as_str().parse::<usize>()?,
        objects: objects.as_str().parse::<usize>()?,
        only,
    })
}
