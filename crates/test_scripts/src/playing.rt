//! A script played over each thing that it names.

use crate::counts::Counts;
use crate::grounds::play_part;
use crate::lines::Place;
use std::alloc::Global;
use std::process::Termination;
use std::test::Fail;

/// Plays the script of a file over each thing that its lines `over ..` name.
pub fn play_text(
    rt: &HostRuntime,
    file: &str,
    text: &str,
    counts: &mut Counts,
) -> Result<(), Fail> {
    let mut named = false;
    'lines: for line in text.lines() {
        if let Some(ground) = line.strip_prefix("over ") {
            play_over(rt, file, ground, text, counts);
            named = true;
        }
    }
    if named {
        return Ok(());
    }
    counts.refuse(
        rt,
        format_args!("{file}: no line says over what it is played"),
    )
}

fn play_over(rt: &HostRuntime, file: &str, ground: &str, text: &str, counts: &mut Counts) {
    let mut place = Place::start();
    match play_parts(rt.alloc(), ground, text, &mut place) {
        Ok(()) => counts.pass(),
        Err(fail) => {
            counts.fail();
            let line = place.line;
            let _ = rt.eprint(format_args!("{file}, line {line}, over {ground}: "));
            let _ = Err::<(), Fail>(fail).report(rt);
        }
    }
}

// Plays the parts of a script, each over a thing of its own.
fn play_parts(alloc: Global, ground: &str, text: &str, place: &mut Place) -> Result<(), Fail> {
    'parts: for part in text.split("\nanew\n") {
        play_part(alloc, ground, part, place)?;
        place.pass();
    }
    if place.played == 0 {
        return Err(Fail::new("nothing is played"));
    }
    Ok(())
}
