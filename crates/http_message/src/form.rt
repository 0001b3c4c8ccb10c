//! The form of a reply's text.
ghost use Rattle.std.specs.Prelude.{◌≡◌, ◌<◌, ◌++◌, length, IfOk, OnOk};
ghost use Rattle.std.specs.Option.{option_map};
ghost use Rattle.http_message.specs.Form.{body_bytes, close_line, field_if, field_line, first_line};
ghost use Rattle.http_message.specs.Form.{head_form, json_text_form, length_line, phrase_of};
ghost use Rattle.http_message.specs.Form.{reply_form, status_line};

use http::StatusCode;
use std::alloc::{AllocError, Global};

// No head of a reply is longer.
pub(crate) const HEAD_ROOM: usize = 192;

// What stands in a reply beside its status, each where there is one: the type of its body, the
// methods that are allowed, and the body.
#[derive(Drop)]
pub(crate) struct Parts<'a> {
    pub kind: Option<&'a [u8]>,
    pub allow: Option<&'a [u8]>,
    pub body: Option<&'a [u8]>,
}

// The text of a reply.
#[tactic(auto, unfolding(crate::specs::Form::reply_form))]
pub(crate) fn print_reply(
    alloc: Global,
    status: StatusCode,
    parts: &Parts<'_>,
    close: bool,
) -> Result<Vec<u8>, AllocError>
    ensures { IfOk result (λ text. text.items
        ≡ reply_form status
        (option_map (λ k. k.now) parts.now.kind)
        (option_map (λ a. a.now) parts.now.allow)
        (option_map (λ b. b.now) parts.now.body)
        close) }
{
    let mut text = print_head(alloc, status, parts, close, room_for(parts.body))?;
    push_body(&mut text, parts.body)?;
    Ok(text)
}

// The text of a reply up to its body, with room for that many bytes.
pub(crate) fn print_head(
    alloc: Global,
    status: StatusCode,
    parts: &Parts<'_>,
    close: bool,
    room: usize,
) -> Result<Vec<u8>, AllocError>
    ensures { IfOk result (λ text. text.items
        ≡ head_form status
        (option_map (λ k. k.now) parts.now.kind)
        (option_map (λ a. a.now) parts.now.allow)
        (option_map (λ b. b.now) parts.now.body)
        close) }
{
    let mut text = Vec::with_capacity(alloc, room)?;
    push_status(&mut text, status)?;
    push_if(&mut text, b"Content-Type", parts.kind)?;
    push_if(&mut text, b"Allow", parts.allow)?;
    push_length(alloc, &mut text, parts.body)?;
    push_close(&mut text, close)?;
    text.extend_from_slice(b"\r\n")?;
    Ok(text)
}

// The room for a head and this body.
fn room_for(body: Option<&[u8]>) -> usize
    ensures { length (body_bytes (option_map (λ b. b.now) body.entry)) < result }
{
    match body {
        Some(body) => body.len() + HEAD_ROOM,
        None => HEAD_ROOM,
    }
}

// Adds the status line.
fn push_status(text: &mut Vec<u8>, status: StatusCode) -> Result<(), AllocError>
    ensures { OnOk result (text.new.items ≡ text.old.items ++ status_line status) }
{
    let phrase = phrase_of(status);
    push_first(text, status.as_str().as_bytes(), phrase.as_bytes())
}

// Adds the status line of these digits and this phrase.
fn push_first(text: &mut Vec<u8>, digits: &[u8], phrase: &[u8]) -> Result<(), AllocError>
    ensures { OnOk result (text.new.items ≡ text.old.items ++ first_line digits.now phrase.now) }
{
    text.extend_from_slice(b"HTTP/1.1 ")?;
    text.extend_from_slice(digits)?;
    text.extend_from_slice(b" ")?;
    text.extend_from_slice(phrase)?;
    text.extend_from_slice(b"\r\n")?;
    Ok(())
}

// The phrase of a status.
fn phrase_of(status: StatusCode) -> &'static str
    ensures { result.now ≡ phrase_of status }
{
    match status.canonical_reason() {
        Some(phrase) => phrase,
        None => "",
    }
}

// Adds a field.
fn push_field(text: &mut Vec<u8>, name: &[u8], value: &[u8]) -> Result<(), AllocError>
    ensures { OnOk result (text.new.items ≡ text.old.items ++ field_line name.now value.now) }
{
    text.extend_from_slice(name)?;
    text.extend_from_slice(b": ")?;
    text.extend_from_slice(value)?;
    text.extend_from_slice(b"\r\n")
}

// Adds a field, if it has a value.
fn push_if(text: &mut Vec<u8>, name: &[u8], value: Option<&[u8]>) -> Result<(), AllocError>
    ensures { OnOk result (text.new.items
        ≡ text.old.items ++ field_if name.now (option_map (λ v. v.now) value.entry)) }
{
    match value {
        Some(value) => push_field(text, name, value),
        None => Ok(()),
    }
}

// Adds the length of the body, if there is one.
fn push_length(alloc: Global, text: &mut Vec<u8>, body: Option<&[u8]>) -> Result<(), AllocError>
    ensures { OnOk result (text.new.items
        ≡ text.old.items ++ length_line (option_map (λ b. b.now) body.entry)) }
{
    match body {
        Some(body) => {
            let digits = body.len().to_string(alloc)?;
            push_field(text, b"Content-Length", digits.as_bytes())
        }
        None => Ok(()),
    }
}

// Adds that the connection ends, if it does.
fn push_close(text: &mut Vec<u8>, close: bool) -> Result<(), AllocError>
    ensures { OnOk result (text.new.items ≡ text.old.items ++ close_line close) }
{
    if close {
        return text.extend_from_slice(b"Connection: close\r\n");
    }
    Ok(())
}

// Adds the body, if there is one.
fn push_body(text: &mut Vec<u8>, body: Option<&[u8]>) -> Result<(), AllocError>
    ensures { OnOk result (text.new.items
        ≡ text.old.items ++ body_bytes (option_map (λ b. b.now) body.entry)) }
{
    match body {
        Some(body) => text.extend_from_slice(body),
        None => Ok(()),
    }
}

// A reply whose body is JSON.
pub(crate) fn print_json(
    alloc: Global,
    status: StatusCode,
    body: Vec<u8>,
    close: bool,
) -> Result<Vec<u8>, AllocError>
    ensures { IfOk result (λ text. text.items ≡ json_text_form status body.items close) }
{
    let parts = Parts {
        kind: Some(b"application/json"),
        allow: None,
        body: Some(body.as_slice()),
    };
    print_reply(alloc, status, &parts, close)
}
