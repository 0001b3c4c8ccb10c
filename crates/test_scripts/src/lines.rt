//! The lines of a script.

use crate::grounds::Ground;
use std::alloc::Global;
use std::test::Fail;
use test_player::push_all;

/// How far a script was played.
#[derive(Clone, Copy)]
pub struct Place {
    /// The number of the last line that was read.
    pub line: u64,
    /// How many lines were played.
    pub played: u64,
}

impl Place {
    /// Before the first line.
    pub fn start() -> Place {
        Place { line: 0, played: 0 }
    }

    /// One line further.
    pub fn pass(&mut self) {
        self.line = self.line.saturating_add(1);
    }

    /// The line is played.
    fn play(&mut self) {
        self.played = self.played.saturating_add(1);
    }
}

/// Plays lines one after the other.
pub fn play_lines<G: Ground>(
    alloc: Global,
    ground: &mut G,
    part: &str,
    place: &mut Place,
) -> Result<(), Fail> {
    let mut begun = String::new(alloc);
    'lines: for line in part.lines() {
        place.pass();
        if is_played(line) {
            place.play();
            play_line(alloc, ground, &mut begun, line)?;
        }
    }
    if begun.is_empty() {
        return Ok(());
    }
    Err(Fail::new("what was begun has no end"))
}

// Whether the line is more than a comment, and doesn't say over what a script is played.
fn is_played(line: &str) -> bool {
    !(line.is_empty() || line.starts_with("#") || line.starts_with("over "))
}

// Plays a line, with what was begun before it; or adds it to that, where it goes on or is part of a
// connection.
fn play_line<G: Ground>(
    alloc: Global,
    ground: &mut G,
    begun: &mut String,
    line: &str,
) -> Result<(), Fail> {
    if line.starts_with(">") || line.starts_with("<") {
        return push_all(begun, &[line, "\n"]);
    }
    if let Some(front) = line.strip_suffix("\\") {
        return push_all(begun, &[front.trim_start()]);
    }
    push_all(begun, &[line.trim_start()])?;
    play_whole(alloc, ground, begun.as_str())?;
    begun.clear();
    Ok(())
}

fn play_whole<G: Ground>(alloc: Global, ground: &mut G, whole: &str) -> Result<(), Fail> {
    if whole.starts_with(">") {
        ground.converse(alloc, whole)
    } else {
        ground.take(alloc, whole)
    }
}
