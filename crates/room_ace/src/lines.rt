//! The lines of bytes, and their text.
ghost use Rattle.std.specs.Prelude.{◌≡◌, ◌==◌, ◌∷◌, ◌<◌, [], true, false, length, MatchOption};
ghost use Rattle.std.specs.List.{position};
ghost use Rattle.room_entry.specs.Bytes.{line_feed};
ghost use Rattle.room_ace.specs.Lists.{after_line, lines_of, without_return};
ghost use Rattle.room_entry.specs.Utf8.{is_utf8};

/// The first line of the bytes, without its end, and what follows it. A line ends at LF, and loses
/// one CR before its end. Bytes after the last LF are a line if there are any.
pub fn split_line(bytes: &[u8]) -> Option<(&[u8], &[u8])>
    ensures { MatchOption result (bytes.now ≡ []) (λ cut.
        (lines_of bytes.now ≡ cut.0.now ∷ lines_of cut.1.now)
        × (length cut.1.now < length bytes.now) × (cut.1.now ≡ after_line bytes.now)) }
{
    if bytes.is_empty() {
        return None;
    }
    match line_end(bytes) {
        Some(end) => Some((without_return(&bytes[..end]), &bytes[end + 1..])),
        None => Some((without_return(bytes), &bytes[bytes.len()..])),
    }
}

/// The text that the bytes are, if they are UTF-8.
pub fn text_of(bytes: &[u8]) -> Option<&str>
    ensures { MatchOption result (is_utf8 bytes.now ≡ false)
        (λ text. (is_utf8 bytes.now ≡ true) × (text.now ≡ bytes.now)) }
{
    match std::str::from_utf8(bytes) {
        Ok(text) => Some(text),
        Err(_) => None,
    }
}

// Where the first LF stands.
fn line_end(bytes: &[u8]) -> Option<usize>
    ensures { result ≡ position (λ byte. byte == line_feed) bytes.now }
{
    bytes.iter().position(|byte| *byte == b'\n')
}

// The line without one CR at its end.
fn without_return(line: &[u8]) -> &[u8]
    ensures { result.now ≡ without_return line.now }
{
    match line.split_last() {
        None => line,
        Some((last, front)) => { if *last == b'\r' { front } else { line } }
    }
}
