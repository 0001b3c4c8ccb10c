//! Scripts that make rooms.

use crate::job::Job;
use std::alloc::{AllocError, Global};
use std::fmt::Write;
use std::test::Fail;
use test_player::{push, push_all};

// How many documents stand in a folder.
const DOCUMENTS: usize = 100;

// The entries of a list before the last one, which decides: they speak of somebody else. `MANY`
// stands for them.
const OTHERS: u32 = 31;

// Documents at depth 1 and 6 below lists of 32 entries, one whose list grants nothing and asks for
// a record, and a folder that passes on an entry of its own.
static ROOM: &str = "\
root SetList / dacl list:aMANY / A:fd:user7:ALL => done
user7 MakeFolder /f => made
user7 MakeFolder /f/f => made
user7 MakeFolder /f/f/f => made
user7 MakeFolder /f/f/f/f => made
user7 MakeFolder /f/f/f/f/f => made
user7 PutMany /g 1024 => made
user7 PutMany /f/f/f/f/f/g 1024 => made
user7 SetList /f dacl list:aMANY => done
user7 SetList /f/f dacl list:aMANY => done
user7 SetList /f/f/f dacl list:aMANY => done
user7 SetList /f/f/f/f dacl list:aMANY => done
user7 SetList /f/f/f/f/f dacl list:aMANY => done
user7 SetList /g dacl list:aMANY => done
user7 SetList /f/f/f/f/f/g dacl list:aMANY => done
user7 PutMany /s 1024 => made
user7 SetList /s sacl list:a / U:F:EVERYONE@:r => done
user7 SetList /s dacl list:apMANY => done
user7 MakeFolder /b => made
user7 SetList /b dacl list:a / A:fd:carol:r => done
";

/// The script that makes the room of the requests in an open room: the folder `/x` has the objects
/// below, and `/o` the others, 100 in each folder as `/o/f1`.
pub fn room_script(alloc: Global, job: &Job<'_>) -> Result<String, Fail> {
    let mut script = String::new(alloc);
    push_room(&mut script, job)?;
    Ok(script)
}

fn push_room(script: &mut String, job: &Job<'_>) -> Result<(), Fail> {
    'lines: for line in ROOM.lines() {
        push_line(script, line)?;
    }
    push_objects(script, "/x", job.below)?;
    push_objects(script, "/o", job.objects)
}

fn push_line(script: &mut String, line: &str) -> Result<(), Fail> {
    let Some((front, end)) = line.split_once("MANY") else {
        return push_all(script, &[line, "\n"]);
    };
    push(script, front)?;
    for _ in 0..OTHERS {
        push(script, " / A::bob:r")?;
    }
    push_all(script, &[end, "\n"])
}

// A folder, and in it folders of documents, `objects` objects in all below it.
fn push_objects(script: &mut String, top: &str, objects: usize) -> Result<(), Fail> {
    push_all(script, &["user7 MakeFolder ", top, " => made\n"])?;
    let mut folder = 0;
    for number in 1..=objects {
        if number % (DOCUMENTS + 1) == 1 {
            folder = number;
            push_folder(script, top, number)?;
        } else {
            push_document(script, top, folder, number)?;
        }
    }
    Ok(())
}

fn push_folder(script: &mut String, top: &str, number: usize) -> Result<(), AllocError> {
    writeln!(script, "user7 MakeFolder {top}/f{number} => made")
}

fn push_document(
    script: &mut String,
    top: &str,
    folder: usize,
    number: usize,
) -> Result<(), AllocError> {
    writeln!(
        script,
        "user7 PutMany {top}/f{folder}/d{number} 200 => made"
    )
}

/// The script that makes a document of 1 KiB in an open room, and this many empty ones.
pub fn documents_script(alloc: Global, documents: usize) -> Result<String, Fail> {
    let mut script = String::from_str(alloc, "root PutMany /f 1024 => made\n")?;
    push_documents(&mut script, documents)?;
    Ok(script)
}

fn push_documents(script: &mut String, documents: usize) -> Result<(), Fail> {
    for number in 0..documents {
        push_empty(script, number)?;
    }
    Ok(())
}

fn push_empty(script: &mut String, number: usize) -> Result<(), AllocError> {
    writeln!(script, "root PutMany /object{number} 0 => made")
}

/// The line that imports this many pairs of members, where each user is in five groups.
pub fn import_script(alloc: Global, pairs: usize) -> Result<String, Fail> {
    let mut script = String::from_str(alloc, "store Import group,user")?;
    push_pairs(&mut script, " / ", pairs)?;
    push(&mut script, " => done")?;
    Ok(script)
}

/// Adds this many pairs of a group and a user, each after these letters.
pub fn push_pairs(text: &mut String, front: &str, pairs: usize) -> Result<(), AllocError> {
    for row in 0..pairs {
        push_pair(text, front, row)?;
    }
    Ok(())
}

fn push_pair(text: &mut String, front: &str, row: usize) -> Result<(), AllocError> {
    let group = row % 50;
    let user = row / 5;
    write!(text, "{front}group{group},user{user}")
}
