//! Writing a text.
ghost use Rattle.std.specs.Prelude.{◌≡◌, OnOk, OnErr};
ghost use Rattle.std.specs.Io.KnownBytes.{Appends};
ghost use Rattle.cli_outcome.specs.Written.{WritesSome};

use std::io::{self, ErrorKind, Write};

// Writes the text. Where a write fails or takes no byte, a front of it was written.
fn write_text<W: Write>(w: &mut W, text: &[u8]) -> io::Result<()>
    ensures ok { OnOk result (Appends (W.contents w.old) (W.contents w.new) text.now) }
    ensures err { OnErr result (WritesSome (W.contents w.old) (W.contents w.new) text.now) }
{
    let mut index = 0;
    'writing: while index < text.len() {
        let count = match w.write(&text[index..]) {
            Ok(count) => count,
            Err(error) => return Err(error),
        };
        if count == 0 {
            return Err(io::Error::from(ErrorKind::WriteZero));
        }
        index += count;
    }
    Ok(())
}

/// Writes and flushes the text. Where that fails, a front of the text was written.
pub fn send_text<W: Write>(w: &mut W, text: &[u8]) -> io::Result<()>
    ensures ok { OnOk result (Appends (W.contents w.old) (W.contents w.new) text.now) }
    ensures err { OnErr result (WritesSome (W.contents w.old) (W.contents w.new) text.now) }
{
    write_text(w, text)?;
    w.flush()
}
