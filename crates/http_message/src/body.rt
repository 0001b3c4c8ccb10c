//! The texts in a JSON body.
ghost use Rattle.std.specs.Prelude.{◌≡◌, IfOk, option_map};
ghost use Rattle.serde_json.specs.View.{view};
ghost use Rattle.room_entry.specs.Gives.{Gives};
ghost use Rattle.http_message.specs.Asked.{asked_name, name_under, asked_owners, asked_path};
ghost use Rattle.http_message.specs.Asked.{path_under};
ghost use Rattle.http_message.specs.Json.{json_of, text_under};

use crate::fault::HttpFault;
use room_ace::{Failure, Name, Owners, map_fault, read_name, text_of};
use room_rows::{Path, Text, read_path};
use serde_json::Value;
use std::alloc::{AllocError, Global};

// The value that the bytes are, if they are one.
fn json_in(alloc: Global, body: &[u8]) -> Result<Option<Value>, AllocError>
    ensures { IfOk result (λ value. option_map view value ≡ json_of body.now) }
{
    let text = match text_of(body) {
        Some(text) => text,
        None => return Ok(None),
    };
    match Value::from_str(alloc, text) {
        Ok(value) => Ok(Some(value)),
        Err(e) => {
            if e.is_memory() {
                return Err(AllocError);
            }
            Ok(None)
        }
    }
}

// The text under a key of a value, if there is one.
fn text_under(alloc: Global, key: &str, value: &Option<Value>) -> Result<Option<Text>, AllocError>
    ensures { IfOk result (λ found. found ≡ text_under key.now (option_map view value.now)) }
{
    let value = match value {
        Some(value) => value,
        None => return Ok(None),
    };
    let member = match value.get(key) {
        Some(member) => member,
        None => return Ok(None),
    };
    match member.as_str() {
        Some(found) => Ok(Some(Text::from_str(alloc, found)?)),
        None => Ok(None),
    }
}

// The path under a key of a body.
pub(crate) fn path_under(alloc: Global, key: &str, body: &[u8]) -> Result<Path, Failure<HttpFault>>
    ensures { Gives result (path_under key.now (json_of body.now)) }
{
    let value = json_in(alloc, body)?;
    path_at(alloc, key, &value)
}

// The path under a key of a value.
fn path_at(alloc: Global, key: &str, value: &Option<Value>) -> Result<Path, Failure<HttpFault>>
    ensures { Gives result (path_under key.now (option_map view value.now)) }
{
    match text_under(alloc, key, value)? {
        None => Err(Failure::Fault(HttpFault::BadBody)),
        Some(text) => asked_path(alloc, text.as_str()),
    }
}

// The path that a text in a body is.
fn asked_path(alloc: Global, text: &str) -> Result<Path, Failure<HttpFault>>
    ensures { Gives result (asked_path text.now) }
{
    map_fault(read_path(alloc, text.as_bytes()), |_| HttpFault::BadBody)
}

// The name under a key of a value.
fn name_under(alloc: Global, key: &str, value: &Option<Value>) -> Result<Name, Failure<HttpFault>>
    ensures { Gives result (name_under key.now (option_map view value.now)) }
{
    match text_under(alloc, key, value)? {
        None => Err(Failure::Fault(HttpFault::BadBody)),
        Some(text) => asked_name(alloc, text.as_str()),
    }
}

// The name that a text in a body is.
fn asked_name(alloc: Global, text: &str) -> Result<Name, Failure<HttpFault>>
    ensures { Gives result (asked_name text.now) }
{
    map_fault(read_name(alloc, text), |_| HttpFault::BadBody)
}

// The owners that a body says.
pub(crate) fn asked_owners(alloc: Global, body: &[u8]) -> Result<Owners, Failure<HttpFault>>
    ensures { Gives result (asked_owners (json_of body.now)) }
{
    let value = json_in(alloc, body)?;
    owners_at(alloc, &value)
}

// The owners that a value says.
fn owners_at(alloc: Global, value: &Option<Value>) -> Result<Owners, Failure<HttpFault>>
    ensures { Gives result (asked_owners (option_map view value.now)) }
{
    let owner = name_under(alloc, "owner", value)?;
    let group = name_under(alloc, "group", value)?;
    Ok(Owners { owner, group })
}
