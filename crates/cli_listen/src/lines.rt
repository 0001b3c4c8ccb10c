//! Lines that are printed beside the replies.
ghost use Rattle.std.specs.Prelude.{◌≡◌, ◌++◌, IfSome, IsTrue, OnOk};
ghost use Rattle.std.specs.Io.KnownBytes.{Appends};
ghost use Rattle.cli_outcome.specs.Written.{WritesSome};
ghost use Rattle.cli_listen.specs.Lines.{TellsAddress, connection_line, listening_line};

use arrayvec::ArrayString;
use cli_outcome::{ListenAddress, send_text};
use room_http::Cause;
use std::fmt;
use std::fmt::Write as _;
use std::io::Write;

// Adds the line of the address to a text, if it fits.
fn add_address(text: &mut ArrayString<128>, address: &ListenAddress<'_>) -> fmt::Result
    ensures { OnOk result (text.new.bytes ≡ text.old.bytes ++ listening_line address.now) }
{
    match address {
        ListenAddress::Port(port) => write!(text, "listening 127.0.0.1:{port}\n"),
        ListenAddress::Socket(path) => write!(text, "listening {path}\n"),
    }
}

// It takes no memory, as that of a connection doesn't. The path of a socket has 107 bytes at most.
fn line_of_address(address: &ListenAddress<'_>) -> Option<ArrayString<128>>
    ensures { IfSome result (λ line. line.bytes ≡ listening_line address.now) }
{
    let mut line = ArrayString::new();
    match add_address(&mut line, address) {
        Ok(()) => Some(line),
        Err(_) => None,
    }
}

/// Prints where connections are accepted, before the first is, and answers whether all of the line
/// was printed.
pub(crate) fn tell_address<O: Write>(out: &mut O, address: &ListenAddress<'_>) -> bool
    ensures whole { IsTrue result
        → TellsAddress address.now (O.contents out.old) (O.contents out.new) }
    ensures some { WritesSome (O.contents out.old) (O.contents out.new)
        (listening_line address.now) }
{
    match line_of_address(address) {
        Some(line) => send_text(out, line.as_str().as_bytes()).is_ok(),
        None => false,
    }
}

// Adds the line to a text, if it fits.
fn add_line(text: &mut ArrayString<64>, number: u64, cause: Cause) -> fmt::Result
    ensures { OnOk result (text.new.bytes ≡ text.old.bytes ++ connection_line number cause) }
{
    match cause {
        Cause::Read => write!(text, "connection {number}: read fault\n"),
        Cause::Write => write!(text, "connection {number}: write fault\n"),
        Cause::Memory => write!(text, "connection {number}: memory fault\n"),
    }
}

// The line takes no memory, since memory may be what ran out.
fn line_of(number: u64, cause: Cause) -> Option<ArrayString<64>>
    ensures { IfSome result (λ line. line.bytes ≡ connection_line number cause) }
{
    let mut line = ArrayString::new();
    match add_line(&mut line, number, cause) {
        Ok(()) => Some(line),
        Err(_) => None,
    }
}

/// Prints what ended this connection, counted from 1, and answers whether all of the line was
/// printed.
pub(crate) fn tell_fault<E: Write>(err: &mut E, number: u64, cause: Cause) -> bool
    ensures whole { IsTrue result → Appends (E.contents err.old) (E.contents err.new)
        (connection_line number cause) }
    ensures some { WritesSome (E.contents err.old) (E.contents err.new)
        (connection_line number cause) }
{
    match line_of(number, cause) {
        Some(line) => send_text(err, line.as_str().as_bytes()).is_ok(),
        None => false,
    }
}
