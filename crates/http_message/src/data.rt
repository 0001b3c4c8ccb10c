//! The JSON of replies, written a token at a time.
ghost use Rattle.std.specs.Prelude.{◌≡◌, IfOk, OnOk, [], ◌∷◌, ◌++◌, option_map, string_bytes};
ghost use Rattle.json.specs.Token.{Token};
ghost use Rattle.serde_json.specs.View.{members_view, view};
ghost use Rattle.room_entry.specs.Letters.{mask_text};
ghost use Rattle.serde_json.specs.Data.{put, string};
ghost use Rattle.http_message.specs.Bodies.{at_data, attr_data, attr_texts, child_texts};
ghost use Rattle.http_message.specs.Bodies.{denied_data, denied_texts, line_data, names_data};
ghost use Rattle.http_message.specs.Bodies.{number_or_null, place_data, refused_data, ruling_text};
ghost use Rattle.http_message.specs.Bodies.{rulings_data, text_or_null, why_data};
ghost use Rattle.http_message.specs.Form.{data_tokens};

use crate::reply_texts::{bad_list_text, kind_text};
use json::Writer;
use room_ace::{Entry, Mask, ObjKind, Owners, print_entry};
use room_eval::Ruling;
use room_machine::Reason;
use room_rows::{Path, Text};
use serde_json::{Map, Value};
use std::alloc::{AllocError, Global};

// A buffer for one value.
pub(crate) fn started(alloc: Global, room: usize) -> Result<Writer, AllocError>
    ensures before { IfOk result (λ out. out.before ≡ []) }
    ensures tokens { IfOk result (λ out. out.tokens ≡ []) }
{
    Ok(Writer::new(Vec::with_capacity(alloc, room)?))
}

// Adds a member whose value is a text.
fn push_member(out: &mut Writer, key: &str, text: &str) -> Result<(), AllocError>
    ensures before { out.new.before ≡ out.old.before }
    ensures tokens { OnOk result (out.new.tokens
        ≡ out.old.tokens ++ Token.key key.now ∷ Token.string text.now ∷ []) }
{
    out.key(key)?;
    out.string(text)
}

// Why something is refused.
pub(crate) fn push_why(out: &mut Writer, why: &str) -> Result<(), AllocError>
    ensures before { out.new.before ≡ out.old.before }
    ensures tokens { OnOk result (out.new.tokens
        ≡ out.old.tokens ++ data_tokens (why_data why.now)) }
{
    out.begin_object()?;
    push_member(out, "why", why)?;
    out.end_object()
}

// Why a line is refused.
pub(crate) fn push_line(out: &mut Writer, line: usize, why: &str) -> Result<(), AllocError>
    ensures before { out.new.before ≡ out.old.before }
    ensures tokens { OnOk result (out.new.tokens
        ≡ out.old.tokens ++ data_tokens (line_data line why.now)) }
{
    out.begin_object()?;
    out.key("line")?;
    out.u64(line as u64)?;
    push_member(out, "why", why)?;
    out.end_object()
}

// Why a request is refused, at a path.
pub(crate) fn push_refused(
    alloc: Global,
    out: &mut Writer,
    path: &Path,
    why: &Reason,
) -> Result<(), AllocError>
    ensures before { out.new.before ≡ out.old.before }
    ensures tokens { OnOk result (out.new.tokens
        ≡ out.old.tokens ++ data_tokens (refused_data path.now why.now)) }
{
    let text = path.to_text(alloc)?;
    match why {
        Reason::BadList { place, fault } => {
            push_place(out, text.as_str(), *place, bad_list_text(*fault))
        }
        Reason::NoSuch => push_at(out, text.as_str(), "no-such"),
        Reason::NotFolder => push_at(out, text.as_str(), "not-folder"),
        Reason::WrongKind => push_at(out, text.as_str(), "wrong-kind"),
        Reason::Exists => push_at(out, text.as_str(), "exists"),
        Reason::NotEmpty => push_at(out, text.as_str(), "not-empty"),
        Reason::Root => push_at(out, text.as_str(), "root"),
        Reason::Loop => push_at(out, text.as_str(), "loop"),
        Reason::TooLarge => push_at(out, text.as_str(), "too-large"),
    }
}

fn push_at(out: &mut Writer, path: &str, why: &str) -> Result<(), AllocError>
    ensures before { out.new.before ≡ out.old.before }
    ensures tokens { OnOk result (out.new.tokens
        ≡ out.old.tokens ++ data_tokens (at_data path.now why.now)) }
{
    out.begin_object()?;
    push_member(out, "at", path)?;
    push_member(out, "why", why)?;
    out.end_object()
}

fn push_place(out: &mut Writer, path: &str, place: usize, why: &str) -> Result<(), AllocError>
    ensures before { out.new.before ≡ out.old.before }
    ensures tokens { OnOk result (out.new.tokens
        ≡ out.old.tokens ++ data_tokens (place_data path.now place why.now)) }
{
    out.begin_object()?;
    push_member(out, "at", path)?;
    out.key("entry")?;
    out.u64(place as u64)?;
    push_member(out, "why", why)?;
    out.end_object()
}

// What was denied, and by which entry.
pub(crate) fn push_denied(
    alloc: Global,
    out: &mut Writer,
    path: &Path,
    bits: Mask,
    place: Option<usize>,
    entry: Option<&Entry>,
) -> Result<(), AllocError>
    ensures before { out.new.before ≡ out.old.before }
    ensures tokens { OnOk result (out.new.tokens ≡ out.old.tokens
        ++ data_tokens (denied_data path.now bits place (option_map (λ e. e.now) entry.entry))) }
{
    let text = path.to_text(alloc)?;
    match entry {
        None => push_denied_line(alloc, out, text.as_str(), bits, place, None),
        Some(entry) => {
            let line = print_entry(alloc, entry)?;
            push_denied_line(alloc, out, text.as_str(), bits, place, Some(line.as_str()))
        }
    }
}

// What was denied, with the text of the path and of the entry.
fn push_denied_line(
    alloc: Global,
    out: &mut Writer,
    path: &str,
    bits: Mask,
    place: Option<usize>,
    text: Option<&str>,
) -> Result<(), AllocError>
    ensures before { out.new.before ≡ out.old.before }
    ensures tokens { OnOk result (out.new.tokens ≡ out.old.tokens
        ++ data_tokens (denied_texts path.now (mask_text bits) place
        (option_map (λ t. t.now) text.entry))) }
{
    let mut letters = String::new(alloc);
    bits.push_letters(&mut letters)?;
    push_denied_texts(out, path, letters.as_str(), place, text)
}

fn push_denied_texts(
    out: &mut Writer,
    path: &str,
    bits: &str,
    place: Option<usize>,
    text: Option<&str>,
) -> Result<(), AllocError>
    ensures before { out.new.before ≡ out.old.before }
    ensures tokens { OnOk result (out.new.tokens ≡ out.old.tokens
        ++ data_tokens
        (denied_texts path.now bits.now place (option_map (λ t. t.now) text.entry))) }
{
    out.begin_object()?;
    push_member(out, "at", path)?;
    push_member(out, "bits", bits)?;
    push_number_or_null(out, "entry", place)?;
    push_text_or_null(out, "text", text)?;
    out.end_object()
}

// Adds a member whose value is a number, or null.
fn push_number_or_null(out: &mut Writer, key: &str, number: Option<usize>) -> Result<(), AllocError>
    ensures before { out.new.before ≡ out.old.before }
    ensures tokens { OnOk result (out.new.tokens
        ≡ out.old.tokens ++ Token.key key.now ∷ data_tokens (number_or_null number)) }
{
    out.key(key)?;
    match number {
        None => out.null(),
        Some(number) => out.u64(number as u64),
    }
}

// Adds a member whose value is a text, or null.
fn push_text_or_null(out: &mut Writer, key: &str, text: Option<&str>) -> Result<(), AllocError>
    ensures before { out.new.before ≡ out.old.before }
    ensures tokens { OnOk result (out.new.tokens ≡ out.old.tokens
        ++ Token.key key.now ∷ data_tokens (text_or_null (option_map (λ t. t.now) text.entry))) }
{
    out.key(key)?;
    match text {
        None => out.null(),
        Some(text) => out.string(text),
    }
}

// Kind and owners.
pub(crate) fn push_attr(out: &mut Writer, kind: ObjKind, owners: &Owners) -> Result<(), AllocError>
    ensures before { out.new.before ≡ out.old.before }
    ensures tokens { OnOk result (out.new.tokens
        ≡ out.old.tokens ++ data_tokens (attr_data kind owners.now)) }
{
    push_attr_texts(
        out,
        owners.group.as_str(),
        kind_text(kind),
        owners.owner.as_str(),
    )
}

fn push_attr_texts(out: &mut Writer, group: &str, kind: &str, owner: &str) -> Result<(), AllocError>
    ensures before { out.new.before ≡ out.old.before }
    ensures tokens { OnOk result (out.new.tokens
        ≡ out.old.tokens ++ data_tokens (attr_texts group.now kind.now owner.now)) }
{
    out.begin_object()?;
    push_member(out, "group", group)?;
    push_member(out, "kind", kind)?;
    push_member(out, "owner", owner)?;
    out.end_object()
}

// Names and kinds of children.
pub(crate) fn push_names(out: &mut Writer, children: &[(Text, ObjKind)]) -> Result<(), AllocError>
    ensures before { out.new.before ≡ out.old.before }
    ensures tokens { OnOk result (out.new.tokens
        ≡ out.old.tokens ++ data_tokens (names_data children.now)) }
{
    out.begin_array()?;
    for child in children {
        push_child(out, child.0.as_str(), kind_text(child.1))?;
    }
    out.end_array()
}

fn push_child(out: &mut Writer, name: &str, kind: &str) -> Result<(), AllocError>
    ensures before { out.new.before ≡ out.old.before }
    ensures tokens { OnOk result (out.new.tokens
        ≡ out.old.tokens ++ data_tokens (child_texts name.now kind.now)) }
{
    out.begin_object()?;
    push_member(out, "kind", kind)?;
    push_member(out, "name", name)?;
    out.end_object()
}

// The ruling of each bit. A map puts the letters in order.
pub(crate) fn rulings_value(alloc: Global, rulings: &[(Mask, Ruling)]) -> Result<Value, AllocError>
    ensures { IfOk result (λ value. view value ≡ rulings_data rulings.now) }
{
    let mut members = Map::new(alloc);
    for (mask, ruling) in rulings {
        put_ruling(alloc, &mut members, *mask, *ruling)?;
    }
    Ok(Value::Object(members))
}

// Puts the ruling of a bit under the bit's letter.
fn put_ruling(
    alloc: Global,
    members: &mut Map<String, Value>,
    mask: Mask,
    ruling: Ruling,
) -> Result<(), AllocError>
    ensures { OnOk result (members_view members.new.entries
        ≡ put (mask_text mask) (string (ruling_text ruling)) (members_view members.old.entries)) }
{
    let mut letters = String::new(alloc);
    mask.push_letters(&mut letters)?;
    let value = ruling_value(alloc, ruling)?;
    serde_json::put(members, alloc, letters.as_str(), value)
}

fn ruling_value(alloc: Global, ruling: Ruling) -> Result<Value, AllocError>
    ensures { IfOk result (λ value. view value ≡ string (ruling_text ruling)) }
{
    Ok(Value::String(ruling_text(alloc, ruling)?))
}

fn ruling_text(alloc: Global, ruling: Ruling) -> Result<String, AllocError>
    ensures { IfOk result (λ text. string_bytes text ≡ ruling_text ruling) }
{
    match ruling {
        Ruling::Allowed(place) => format!(in alloc; "allowed {place}"),
        Ruling::Denied(place) => format!(in alloc; "denied {place}"),
        Ruling::Silent => String::from_str(alloc, "silent"),
    }
}
