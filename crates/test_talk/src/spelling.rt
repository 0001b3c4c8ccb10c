//! The bytes that a line of a script says. `|` stands for CRLF, `~` for LF, `^3 ab^` for `ababab`,
//! and `^FF^` for the byte of these two digits.
use std::alloc::AllocError;
use std::test::Fail;

/// Adds the bytes that a text says.
pub(crate) fn push_spelled(bytes: &mut Vec<u8>, text: &str) -> Result<(), Fail> {
    let mut marked = false;
    'parts: for part in text.split("^") {
        if marked {
            push_marked(bytes, part)?;
        } else {
            push_plain(bytes, part)?;
        }
        marked = !marked;
    }
    Ok(())
}

// Adds what stands between two marks: a text a number of times, or a byte.
fn push_marked(bytes: &mut Vec<u8>, part: &str) -> Result<(), Fail> {
    match part.split_once(" ") {
        Some((count, text)) => Ok(push_times(bytes, text, count.parse::<usize>()?)?),
        None => Ok(bytes.push(u8::from_str_radix(part, 16)?)?),
    }
}

fn push_times(bytes: &mut Vec<u8>, text: &str, count: usize) -> Result<(), AllocError> {
    'times: for _ in 0..count {
        push_plain(bytes, text)?;
    }
    Ok(())
}

fn push_plain(bytes: &mut Vec<u8>, text: &str) -> Result<(), AllocError> {
    'bytes: for byte in text.as_bytes() {
        push_byte(bytes, *byte)?;
    }
    Ok(())
}

fn push_byte(bytes: &mut Vec<u8>, byte: u8) -> Result<(), AllocError> {
    match byte {
        b'|' => bytes.extend_from_slice(b"\r\n"),
        b'~' => bytes.extend_from_slice(b"\n"),
        _ => bytes.extend_from_slice(&[byte]),
    }
}
