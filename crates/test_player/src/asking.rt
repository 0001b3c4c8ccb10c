//! Requests as a line of a script words them.

use crate::sending::{bytes_of, many_bytes, owners_of, path_of, sent_of, which_of};
use crate::words::cut;
use room_ace::{Name, read_mask, read_name};
use room_machine::Request;
use room_rows::Path;
use std::alloc::Global;
use std::test::Fail;

/// Who asks in a line, and what.
#[derive(Drop)]
pub struct Spoken {
    pub caller: Option<Name>,
    pub request: Request,
}

/// The caller and the request of a line.
pub fn spoken_in(alloc: Global, asked: &str) -> Result<Spoken, Fail> {
    let (who, rest) = asked.split_once(" ").ok_or("no caller")?;
    let caller = caller_of(alloc, who)?;
    Ok(Spoken {
        caller,
        request: request_of(alloc, rest)?,
    })
}

// The caller of this name.
fn caller_of(alloc: Global, who: &str) -> Result<Option<Name>, Fail> {
    if who == "-" {
        return Ok(None);
    }
    Ok(Some(read_name(alloc, who)?))
}

// The request of these words: what is asked, a path, and what follows it.
fn request_of(alloc: Global, words: &str) -> Result<Request, Fail> {
    let (verb, words) = cut(words);
    let (place, rest) = cut(words);
    match verb {
        "Put" => put(alloc, place, rest),
        "PutMany" => put_many(alloc, place, rest),
        "Append" => append(alloc, place, rest),
        "AppendMany" => append_many(alloc, place, rest),
        "Move" => move_to(alloc, place, rest),
        "SetOwners" => set_owners(alloc, place, rest),
        "SetList" => set_list(alloc, place, rest),
        "Can" => can(alloc, place, rest),
        _ => reading_of(verb, path_of(alloc, place)?, rest),
    }
}

// The request that takes a path alone, or the name of a list.
fn reading_of(verb: &str, path: Path, rest: &str) -> Result<Request, Fail> {
    match verb {
        "Read" => Ok(Request::Read(path)),
        "List" => Ok(Request::List(path)),
        "MakeFolder" => Ok(Request::MakeFolder(path)),
        "Remove" => Ok(Request::Remove(path)),
        "ReadAttr" => Ok(Request::ReadAttr(path)),
        "ReadList" => Ok(Request::ReadList(path, which_of(rest))),
        _ => Err(Fail::new("no such request")),
    }
}

fn put(alloc: Global, place: &str, text: &str) -> Result<Request, Fail> {
    let path = path_of(alloc, place)?;
    Ok(Request::Put(path, bytes_of(alloc, text)?))
}

fn put_many(alloc: Global, place: &str, count: &str) -> Result<Request, Fail> {
    let path = path_of(alloc, place)?;
    Ok(Request::Put(path, many_bytes(alloc, count)?))
}

fn append(alloc: Global, place: &str, text: &str) -> Result<Request, Fail> {
    let path = path_of(alloc, place)?;
    Ok(Request::Append(path, bytes_of(alloc, text)?))
}

fn append_many(alloc: Global, place: &str, count: &str) -> Result<Request, Fail> {
    let path = path_of(alloc, place)?;
    Ok(Request::Append(path, many_bytes(alloc, count)?))
}

fn move_to(alloc: Global, place: &str, to: &str) -> Result<Request, Fail> {
    let path = path_of(alloc, place)?;
    Ok(Request::Move(path, path_of(alloc, to)?))
}

fn set_owners(alloc: Global, place: &str, owners: &str) -> Result<Request, Fail> {
    let path = path_of(alloc, place)?;
    Ok(Request::SetOwners(path, owners_of(alloc, owners)?))
}

fn set_list(alloc: Global, place: &str, rest: &str) -> Result<Request, Fail> {
    let (which, text) = cut(rest);
    let path = path_of(alloc, place)?;
    Ok(Request::SetList(path, which_of(which), sent_of(alloc, text)?))
}

fn can(alloc: Global, place: &str, letters: &str) -> Result<Request, Fail> {
    let mask = read_mask(letters)?;
    Ok(Request::Can(path_of(alloc, place)?, mask))
}
