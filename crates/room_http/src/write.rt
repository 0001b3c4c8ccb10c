//! Writing a text.
ghost use Rattle.std.specs.Prelude.{◌≡◌, IfErr, OnOk, OnErr};
ghost use Rattle.std.specs.Io.KnownBytes.{Appends};
ghost use Rattle.room_http.specs.Exchange.{WritesPart};

use crate::ended::Cause;
use http_message::ReplyText;
use std::io::Write;

// Writes the text. Where a write fails or takes no byte, a part of it was written.
pub(crate) fn write_text<W: Write>(w: &mut W, text: &[u8]) -> Result<(), Cause>
    ensures ok { OnOk result (Appends (W.contents w.old) (W.contents w.new) text.now) }
    ensures err { OnErr result (WritesPart (W.contents w.old) (W.contents w.new) text.now) }
    ensures cause { IfErr result (λ cause. cause ≡ Cause.Write) }
{
    let mut index = 0;
    'writing: while index < text.len() {
        match w.write(&text[index..]) {
            Ok(count) => {
                if count == 0 {
                    return Err(Cause::Write);
                }
                index += count;
            }
            Err(_) => return Err(Cause::Write),
        }
    }
    Ok(())
}

// Writes the text of a reply, in its one or two pieces.
pub(crate) fn write_reply<W: Write>(w: &mut W, text: &ReplyText) -> Result<(), Cause>
    ensures ok { OnOk result (Appends (W.contents w.old) (W.contents w.new) text.now) }
    ensures err { OnErr result (WritesPart (W.contents w.old) (W.contents w.new) text.now) }
    ensures cause { IfErr result (λ cause. cause ≡ Cause.Write) }
{
    let (front, rest) = text.parts();
    write_text(w, front)?;
    write_text(w, rest)
}
