//! The bytes of a connection.

use crate::workloads::Message;
use std::alloc::{AllocError, Global};
use std::fmt::Write;
use std::test::Fail;
use test_player::push_all;

/// A message.
pub fn bytes_of(alloc: Global, message: &Message) -> Result<Vec<u8>, Fail> {
    let mut text = String::new(alloc);
    push_head(&mut text, message)?;
    for _ in 0..message.body {
        text.push_str("a")?;
    }
    Ok(Vec::from_slice(alloc, text.as_bytes())?)
}

fn push_head(text: &mut String, message: &Message) -> Result<(), Fail> {
    push_all(
        text,
        &[
            message.target,
            " HTTP/1.1\r\nHost: rooms\r\nRoom-User: root\r\n",
        ],
    )?;
    push_length(text, message.body)?;
    push_all(text, &["\r\n"])
}

fn push_length(text: &mut String, body: usize) -> Result<(), AllocError> {
    if body == 0 {
        return Ok(());
    }
    write!(text, "Content-Length: {body}\r\n")
}

/// The same message `count` times.
pub fn stream(alloc: Global, message: &[u8], count: u32) -> Result<Vec<u8>, AllocError> {
    let mut bytes = Vec::new(alloc);
    for _ in 0..count {
        bytes.extend_from_slice(message)?;
    }
    Ok(bytes)
}
