//! What an input asks: its headers and its list.
ghost use Rattle.std.specs.Prelude.{◌≡◌, ◌+◌, ◌≤◌, length};
ghost use Rattle.room_entry.specs.Gives.{Gives};
ghost use Rattle.room_ace.specs.Lists.{lines_of};
ghost use Rattle.cli_check.specs.Check.{answer_of, list_below, question_of};
ghost use Rattle.room_eval.specs.Verdict.{verdict};

use crate::fault::{InputFault, InputWhy};
use crate::headers::{read_asked, read_caller, read_groups_line, read_owners};
use crate::judging::Judged;
use room_ace::{
    Caller, Entry, Failure, MOST_BYTES, Mask, ObjKind, Owners, SentList, Which, first_bad_entry,
    read_list,
};
use room_eval::{Verdict, decide, members_decide};
use std::alloc::Global;

// The list begins below this many header lines.
const HEADERS: usize = 4;

/// A caller, the owners of an object, the bits that are asked, and the list that decides.
#[derive(Drop)]
pub struct Question {
    /// Who asks.
    pub caller: Caller,
    /// Who owns the object.
    pub owners: Owners,
    /// The bits that are asked.
    pub asked: Mask,
    /// The object's list.
    pub list: SentList,
}

/// The question that the bytes spell, or the first fault of a line. There are at most `MOST_BYTES`
/// bytes.
pub fn read_question(alloc: Global, bytes: &[u8]) -> Result<Question, Failure<InputFault>>
    requires { length bytes.now ≤ MOST_BYTES }
    ensures { Gives result (question_of (lines_of bytes.now)) }
{
    let mut rest = bytes;
    let user = read_caller(alloc, &mut rest)?;
    let groups = read_groups_line(alloc, &user, &mut rest)?;
    let owners = read_owners(alloc, &mut rest)?;
    let asked = read_asked(&mut rest)?;
    let list = list_in(alloc, rest)?;
    Ok(Question {
        caller: Caller { user, groups },
        owners,
        asked,
        list,
    })
}

// The list below the headers, whose lines count on from theirs.
fn list_in(alloc: Global, bytes: &[u8]) -> Result<SentList, Failure<InputFault>>
    requires { length bytes.now ≤ MOST_BYTES }
    ensures { Gives result (list_below (lines_of bytes.now)) }
{
    match read_list(alloc, bytes) {
        Ok(list) => Ok(list),
        Err(Failure::OutOfMemory) => Err(Failure::OutOfMemory),
        Err(Failure::Fault(fault)) => Err(Failure::Fault(InputFault {
            line: HEADERS + fault.line,
            why: InputWhy::Text(fault.why),
        })),
    }
}

impl Question {
    /// The first entry that isn't valid, or what the list says of the bits that are asked.
    pub fn judge(mut self) -> Judged
        ensures { result ≡ answer_of self }
    {
        let entries = self.list.entries().as_slice();
        match first_bad_entry(entries, Which::Dacl, ObjKind::Folder) {
            Some(fault) => Judged::AtEntry(fault),
            None => {
                let verdict = decide_for(entries, &mut self.caller, &self.owners, self.asked);
                Judged::Says(self.list, verdict)
            }
        }
    }
}

// What the entries say of the bits that are asked. The caller's groups are sorted first, since
// each entry may look for one.
fn decide_for(entries: &[Entry], caller: &mut Caller, owners: &Owners, asked: Mask) -> Verdict
    ensures { result ≡ verdict entries.now caller.old owners.now asked }
{
    members_decide();
    caller.groups.sort();
    decide(entries, caller, owners, asked)
}
