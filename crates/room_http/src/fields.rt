//! The head of a message, and the length of its body.
ghost use Rattle.std.specs.Prelude.{◌≡◌, ◌≤◌, length, map, take, IfOk, All};
ghost use Rattle.httparse.specs.Spans.{IsHeaderWithin, IsWithin, header_bytes};
ghost use Rattle.room_http.specs.Limits.{max_body};
ghost use Rattle.room_http.specs.Message.{body_size, field_of, is_number, length_of_text};
ghost use Rattle.room_http.specs.Spans.{head_at};

use crate::refusal::Refusal;
use http_message::{Field, Fields, Head, Values, trimmed, values_under};
use httparse::spans::{HeaderSpan, RequestSpans};
use room_rows::Bytes;
use std::alloc::{AllocError, Global};

const MAX_BODY: usize = 1_048_576;

// Whether a text is one or more digits.
fn is_digits(text: &[u8]) -> bool
    ensures { result ≡ is_number text.now }
{
    for byte in text {
        if !byte.is_ascii_digit() {
            return false;
        }
    }
    !text.is_empty()
}

// The number of a Content-Length.
fn length_in(text: &[u8]) -> Result<usize, Refusal>
    ensures value { result ≡ length_of_text text.now }
    ensures small { IfOk result (λ n. n ≤ max_body) }
{
    if !is_digits(text) {
        return Err(Refusal::BadLength);
    }
    let mut number = 0;
    for digit in text {
        let value = usize::from(digit.wrapping_sub(b'0') % 10);
        number = number * 10 + value;
        if number > MAX_BODY {
            return Err(Refusal::TooLarge);
        }
    }
    Ok(number)
}

// How many bytes of body follow the fields of a head, or why it is refused.
pub(crate) fn declared_size(fields: &[Field]) -> Result<usize, Refusal>
    ensures value { result ≡ body_size fields.now }
    ensures small { IfOk result (λ n. n ≤ max_body) }
{
    let Values::Zero = values_under(fields, b"transfer-encoding") else {
        return Err(Refusal::TransferCoding);
    };
    match values_under(fields, b"content-length") {
        Values::Zero => Ok(0),
        Values::One(text) => length_in(trimmed(text)),
        Values::Many => Err(Refusal::BadLength),
    }
}

// The head that the spans cover.
pub(crate) fn copied_head(
    alloc: Global,
    bytes: &[u8],
    spans: &[HeaderSpan],
    parts: RequestSpans,
) -> Result<Head, AllocError>
    requires method { IsWithin (length bytes.now) parts.method }
    requires path { IsWithin (length bytes.now) parts.path }
    requires count { parts.headers ≤ length spans.now }
    requires fields { All (IsHeaderWithin (length bytes.now)) (take parts.headers spans.now) }
    ensures { IfOk result (λ head. head ≡ head_at bytes.now spans.now parts) }
{
    let fields = copied_fields(alloc, bytes, &spans[..parts.headers])?;
    let method = copied(alloc, parts.method.of(bytes))?;
    let target = copied(alloc, parts.path.of(bytes))?;
    Ok(Head {
        method,
        target,
        minor: parts.version,
        fields,
    })
}

// The fields that the spans cover.
fn copied_fields(alloc: Global, bytes: &[u8], spans: &[HeaderSpan]) -> Result<Fields, AllocError>
    requires { All (IsHeaderWithin (length bytes.now)) spans.now }
    ensures { IfOk result (λ fields. fields
        ≡ map field_of (map (header_bytes bytes.now) spans.now)) }
{
    let mut fields = Vec::with_capacity(alloc, spans.len())?;
    for span in spans {
        let field = copied_field(alloc, span.name.of(bytes), span.value.of(bytes))?;
        fields.push(field)?;
    }
    Ok(Fields::from_vec(fields))
}

fn copied_field(alloc: Global, name: &[u8], value: &[u8]) -> Result<Field, AllocError>
    ensures { IfOk result (λ field. field ≡ field_of (name.now, value.now)) }
{
    let name = copied(alloc, name)?;
    let value = copied(alloc, value)?;
    Ok(Field { name, value })
}

fn copied(alloc: Global, bytes: &[u8]) -> Result<Bytes, AllocError>
    ensures { IfOk result (λ copy. copy ≡ bytes.now) }
{
    Ok(Bytes::from_vec(Vec::from_slice(alloc, bytes)?))
}
