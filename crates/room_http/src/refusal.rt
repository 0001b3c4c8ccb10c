//! Why the next message can't be read, and the replies with a fixed text.
ghost use Rattle.std.specs.Prelude.{◌≡◌, IfOk};
ghost use Rattle.room_http.specs.Text.{refusal_reply, store_text};

use http::StatusCode;
use http_message::print_why;
use std::alloc::{AllocError, Global};

/// Why what stands at the front of a stream is refused before its body is read.
#[derive(Clone, Copy, Debug, PartialEq, Eq)]
pub enum Refusal {
    /// There is no head, and more bytes can't make one.
    BadHead,
    /// There are more than 64 fields, or 16,384 bytes without the head's end.
    TooManyFields,
    /// There is a Transfer-Encoding field.
    TransferCoding,
    /// There are several Content-Length fields, or one that is no number.
    BadLength,
    /// The body would have more than 1,048,576 bytes.
    TooLarge,
}

// The reply to what is refused, which ends the connection.
#[tactic(auto, unfolding(crate::specs::Text::refusal_reply))]
pub(crate) fn refusal_bytes(alloc: Global, refusal: Refusal) -> Result<Vec<u8>, AllocError>
    ensures { IfOk result (λ text. text.items ≡ refusal_reply refusal) }
{
    match refusal {
        Refusal::BadHead => print_why(alloc, StatusCode::BAD_REQUEST, "bad-head", true),
        Refusal::TooManyFields => print_why(
            alloc,
            StatusCode::REQUEST_HEADER_FIELDS_TOO_LARGE,
            "too-many-fields",
            true,
        ),
        Refusal::TransferCoding => {
            print_why(alloc, StatusCode::NOT_IMPLEMENTED, "transfer-coding", true)
        }
        Refusal::BadLength => print_why(alloc, StatusCode::BAD_REQUEST, "bad-length", true),
        Refusal::TooLarge => print_why(alloc, StatusCode::PAYLOAD_TOO_LARGE, "too-large", true),
    }
}

// The reply if the desk failed. It allocates nothing.
pub(crate) fn store_bytes() -> &'static [u8]
    ensures { result.now ≡ store_text }
{
    b"HTTP/1.1 500 Internal Server Error\r\nContent-Type: application/json\r\nContent-Length: 15\r\nConnection: close\r\n\r\n{\"why\":\"store\"}"
}
