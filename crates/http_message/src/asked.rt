//! What a message asks: the tests of a whole message, in their order.
ghost use Rattle.std.specs.Prelude.{◌≡◌, [], IfOk};
ghost use Rattle.room_entry.specs.Gives.{Gives};
ghost use Rattle.http_message.specs.Asked.{asked_by, asked_mask, asked_action, asked_on, list_in};
ghost use Rattle.http_message.specs.Asked.{asked_bits, method_of, request_in, request_of};
ghost use Rattle.http_message.specs.Asked.{target_path};
ghost use Rattle.http_message.specs.declared.route.Action.{Action};

use crate::body::{asked_owners, path_under};
use crate::fault::HttpFault;
use crate::fields::caller_of;
use crate::head::{Field, Head};
use crate::route::{Action, Route, Verb, verb_of};
use crate::router::Routes;
use crate::target::{named_path, parts_of};
use room_ace::{Failure, Mask, Name, SentList, Which, map_fault, read_list, read_mask};
use room_machine::Request;
use room_rows::{Bytes, Path, read_path};
use std::alloc::{AllocError, Global};

/// Who asks, who is anonymous without a name, and what. The error is the first test of a whole
/// message that fails, or that memory ran out.
#[tactic(auto, unfolding(crate::specs::Asked::request_of))]
pub fn request_of(
    routes: &Routes,
    head: &Head,
    body: &[u8],
) -> Result<(Option<Name>, Request), Failure<HttpFault>>
    ensures { Gives result (request_of head.now body.now) }
{
    let verb = method_of(head.method.as_slice())?;
    match parts_of(head.target.as_slice()) {
        None => Err(Failure::Fault(HttpFault::BadTarget)),
        Some(parts) => asked_by(routes, verb, parts, head.fields.as_slice(), body),
    }
}

// The method, if some route has it.
fn method_of(method: &[u8]) -> Result<Verb, Failure<HttpFault>>
    ensures { Gives result (method_of method.now) }
{
    match verb_of(method) {
        None => Err(Failure::Fault(HttpFault::UnknownMethod)),
        Some(verb) => Ok(verb),
    }
}

// The caller and the request, for a method, and a target's path and query.
fn asked_by(
    routes: &Routes,
    verb: Verb,
    parts: (&str, &str),
    fields: &[Field],
    body: &[u8],
) -> Result<(Option<Name>, Request), Failure<HttpFault>>
    ensures { Gives result
        (asked_by verb parts.entry.0.now parts.entry.1.now fields.now body.now) }
{
    let alloc = routes.alloc();
    let (route, action) = asked_action(routes, verb, parts.0)?;
    let names = target_path(alloc, route, parts.0)?;
    let mask = asked_mask(action, parts.1)?;
    asked_on(alloc, action, names, mask, fields, body)
}

// The route, and what it asks by the method.
fn asked_action(
    routes: &Routes,
    verb: Verb,
    path: &str,
) -> Result<(Route, Action), Failure<HttpFault>>
    ensures { Gives result (asked_action verb path.now) }
{
    match routes.route_of(path) {
        None => Err(Failure::Fault(HttpFault::NoRoute)),
        Some(route) => match route.action(verb) {
            None => Err(Failure::Fault(HttpFault::OtherMethod(route))),
            Some(action) => Ok((route, action)),
        },
    }
}

// The path that the target names.
fn target_path(alloc: Global, route: Route, path: &str) -> Result<Path, Failure<HttpFault>>
    ensures { Gives result (target_path route path.now) }
{
    let bytes = named_path(alloc, route, path)?;
    map_fault(read_path(alloc, bytes.as_slice()), HttpFault::BadPath)
}

// The mask of the query, where one is asked.
fn asked_mask(action: Action, query: &str) -> Result<Mask, Failure<HttpFault>>
    ensures { Gives result (asked_mask action query.now) }
{
    match action {
        Action::Can => asked_bits(query),
        _ => Ok(Mask::empty()),
    }
}

// The mask of these letters.
fn asked_bits(query: &str) -> Result<Mask, Failure<HttpFault>>
    ensures { Gives result (asked_bits query.now) }
{
    read_mask(query).map_err(|_| Failure::Fault(HttpFault::BadMask))
}

// The caller and the request, on a path and with a mask.
fn asked_on(
    alloc: Global,
    action: Action,
    path: Path,
    mask: Mask,
    fields: &[Field],
    body: &[u8],
) -> Result<(Option<Name>, Request), Failure<HttpFault>>
    ensures { Gives result (asked_on action path mask fields.now body.now) }
{
    let caller = caller_of(alloc, fields)?;
    let request = request_in(alloc, action, path, mask, body)?;
    Ok((caller, request))
}

// The request of an action, on a path, with a mask and a body.
fn request_in(
    alloc: Global,
    action: Action,
    path: Path,
    mask: Mask,
    body: &[u8],
) -> Result<Request, Failure<HttpFault>>
    ensures { Gives result (request_in action path mask body.now) }
{
    match action {
        Action::Read => Ok(Request::Read(path)),
        Action::List => Ok(Request::List(path)),
        Action::Put => put_in(alloc, path, body),
        Action::Append => append_in(alloc, path, body),
        Action::MakeFolder => Ok(Request::MakeFolder(path)),
        Action::Remove => Ok(Request::Remove(path)),
        Action::Move => move_in(alloc, path, body),
        Action::ReadList(which) => Ok(Request::ReadList(path, which)),
        Action::SetList(which) => set_list_in(alloc, path, which, body),
        Action::ReadAttr => Ok(Request::ReadAttr(path)),
        Action::SetOwners => set_owners_in(alloc, path, body),
        Action::Can => Ok(Request::Can(path, mask)),
    }
}

fn put_in(alloc: Global, path: Path, body: &[u8]) -> Result<Request, Failure<HttpFault>>
    ensures { Gives result (request_in Action.Put path [] body.now) }
{
    let bytes = Bytes::from_slice(alloc, body)?;
    Ok(Request::Put(path, bytes))
}

fn append_in(alloc: Global, path: Path, body: &[u8]) -> Result<Request, Failure<HttpFault>>
    ensures { Gives result (request_in Action.Append path [] body.now) }
{
    let bytes = Bytes::from_slice(alloc, body)?;
    Ok(Request::Append(path, bytes))
}

fn move_in(alloc: Global, path: Path, body: &[u8]) -> Result<Request, Failure<HttpFault>>
    ensures { Gives result (request_in Action.Move path [] body.now) }
{
    let to = path_under(alloc, "to", body)?;
    Ok(Request::Move(path, to))
}

fn set_list_in(
    alloc: Global,
    path: Path,
    which: Which,
    body: &[u8],
) -> Result<Request, Failure<HttpFault>>
    ensures { Gives result (request_in (Action.SetList which) path [] body.now) }
{
    let list = list_in(alloc, body)?;
    Ok(Request::SetList(path, which, list))
}

fn set_owners_in(alloc: Global, path: Path, body: &[u8]) -> Result<Request, Failure<HttpFault>>
    ensures { Gives result (request_in Action.SetOwners path [] body.now) }
{
    let owners = asked_owners(alloc, body)?;
    Ok(Request::SetOwners(path, owners))
}

// The list of a list text.
fn list_in(alloc: Global, body: &[u8]) -> Result<SentList, Failure<HttpFault>>
    ensures { Gives result (list_in body.now) }
{
    map_fault(read_list(alloc, body), HttpFault::BadList)
}
