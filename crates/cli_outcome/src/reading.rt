//! An input that is read whole, unless it is too long.
ghost use Rattle.std.specs.Prelude.{◌≡◌, ◌<◌, ◌≤◌, IfOk, IfSome, OnOk, Ok, false, length, take};
ghost use Rattle.std.specs.Io.KnownBytes.{IsAtEnd};
ghost use Rattle.cli_outcome.specs.Reading.{Brings, TakesAtMost};

use std::alloc::Global;
use std::io::{self, ErrorKind, Read};

const CHUNK_SIZE: usize = 16_384;

// Reads at most `room` bytes through the chunk, and appends them. `false` comes only at the end of
// the input.
fn read_some<R: Read>(
    reader: &mut R,
    chunk: &mut [u8],
    room: usize,
    bytes: &mut Vec<u8>,
) -> io::Result<bool>
    requires some { 0 < room }
    requires within { room ≤ length chunk.old }
    ensures few { TakesAtMost room (R.remaining reader.old) (R.remaining reader.new) }
    ensures came { OnOk result (Brings room (R.remaining reader.old) (R.remaining reader.new)
        bytes.old.items bytes.new.items) }
    ensures end { result ≡ Ok false
        → (bytes.new.items ≡ bytes.old.items) × IsAtEnd (R.remaining reader.new) }
{
    let part = &mut chunk[..room];
    match reader.read(part) {
        Ok(0) => Ok(false),
        Ok(count) => {
            bytes.extend_from_slice(&part[..count])?;
            Ok(true)
        }
        Err(error) => {
            if error.kind() == ErrorKind::Interrupted {
                return Ok(true);
            }
            Err(error)
        }
    }
}

// How many bytes are read at once, where so many are wanted.
fn room_for(wanted: usize) -> usize
    requires { 0 < wanted }
    ensures some { 0 < result }
    ensures within { result ≤ wanted }
    ensures chunk { result ≤ 16384 }
{
    wanted.min(CHUNK_SIZE)
}

/// The bytes of a reader to its end, or the first `most` of them. No more come out of it: one more
/// than an input may have is enough to see that it is too long. The error is the reader's, or out
/// of memory.
pub fn read_front<R: Read>(alloc: Global, reader: &mut R, most: usize) -> io::Result<Vec<u8>>
    ensures front { IfOk result (λ bytes. IfSome (R.remaining reader.old) (λ input.
        bytes.items ≡ take most input)) }
    ensures few { TakesAtMost most (R.remaining reader.old) (R.remaining reader.new) }
{
    let mut bytes = Vec::new(alloc);
    let mut chunk = [0; CHUNK_SIZE];
    'reading: for _ in 0..u64::MAX {
        let count = bytes.len();
        if count >= most {
            return Ok(bytes);
        }
        let room = room_for(most - count);
        if !read_some(reader, &mut chunk, room, &mut bytes)? {
            return Ok(bytes);
        }
    }
    Err(io::Error::from(ErrorKind::Interrupted))
}
