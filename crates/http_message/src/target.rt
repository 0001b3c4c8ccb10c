//! The target of a message.
ghost use Rattle.std.specs.Prelude.{◌≡◌, ◌+◌, false, true, ◌∷◌, drop, length, IfOk, MatchOption};
ghost use Rattle.http_message.specs.Target.{is_target, named_path, path_part, query_part};
ghost use Rattle.http_message.specs.Route.{route_text};

use crate::route::Route;
use percent_encoding::percent_decode;
use room_ace::text_of;
use std::alloc::{AllocError, Global};

// The path of the target and its query, if it begins with a slash and is UTF-8.
pub(crate) fn parts_of(target: &[u8]) -> Option<(&str, &str)>
    ensures { MatchOption result (is_target target.now ≡ false)
        (λ parts. (is_target target.now ≡ true) × (parts.0.now ≡ path_part target.now)
        × (parts.1.now ≡ query_part target.now)) }
{
    if !target.starts_with(b"/") {
        return None;
    }
    match text_of(target) {
        None => None,
        Some(text) => Some(cut_at_mark(text)),
    }
}

// What stands before the first question mark, and what stands after it.
fn cut_at_mark(text: &str) -> (&str, &str)
    ensures path { result.0.now ≡ path_part text.now }
    ensures query { result.1.now ≡ query_part text.now }
{
    match text.split_once('?') {
        Some(parts) => parts,
        None => (text, ""),
    }
}

// The bytes of the path that the target names.
pub(crate) fn named_path(alloc: Global, route: Route, path: &str) -> Result<Vec<u8>, AllocError>
    ensures { IfOk result (λ bytes. bytes.items ≡ named_path route path.now) }
{
    // The route and its slashes are longer than what is added.
    let mut bytes = Vec::with_capacity(alloc, path.len())?;
    bytes.push(b'/')?;
    percent_decode(behind_route(route, path.as_bytes())).append_to(&mut bytes)?;
    Ok(bytes)
}

// What stands after the route's slash.
fn behind_route(route: Route, path: &[u8]) -> &[u8]
    ensures { result.now ≡ drop (length (route_text route) + 2) path.now }
{
    let start = route.as_str().len() + 2;
    if start > path.len() {
        return &[];
    }
    &path[start..]
}
