//! The connections of the system: those of a port, and those of a socket in the file system.
ghost use Rattle.std.specs.Prelude.{⊤};

use crate::accepting::{Listens, Peer, concerns_one};
use crate::fault::ServingFault;
use std::fs::Files;
use std::io::{Read, Write};
use std::net::{Shutdown, TcpListener, TcpStream};
use std::os::unix::fs::MetadataExt;
use std::os::unix::net::{UnixListener, UnixStream};
use std::time::Duration;
use std::{fs, io};

// How much of what a peer still sends is read before its connection is closed: so many reads of so
// many bytes, each of which waits at most so many milliseconds.
const MOST_RESTS: u32 = 16;

const REST_SIZE: usize = 16384;

const REST_MILLIS: u64 = 20;

/// A connection, or one of the two handles of it.
#[derive(Drop)]
pub enum NetStream {
    /// One of a port.
    Tcp(TcpStream),
    /// One of a socket in the file system.
    Unix(UnixStream),
}

impl NetStream {
    fn shutdown(&self, how: Shutdown) -> io::Result<()> {
        match self {
            NetStream::Tcp(stream) => stream.shutdown(how),
            NetStream::Unix(stream) => stream.shutdown(how),
        }
    }

    fn set_read_timeout(&self, millis: u64) -> io::Result<()> {
        let most = Some(Duration::from_millis(millis));
        match self {
            NetStream::Tcp(stream) => stream.set_read_timeout(most),
            NetStream::Unix(stream) => stream.set_read_timeout(most),
        }
    }
}

impl Read for NetStream {
    fn read(&mut self, buf: &mut [u8]) -> io::Result<usize> {
        match self {
            NetStream::Tcp(stream) => stream.read(buf),
            NetStream::Unix(stream) => stream.read(buf),
        }
    }
}

impl Write for NetStream {
    fn write(&mut self, buf: &[u8]) -> io::Result<usize> {
        match self {
            NetStream::Tcp(stream) => stream.write(buf),
            NetStream::Unix(stream) => stream.write(buf),
        }
    }

    fn flush(&mut self) -> io::Result<()> {
        match self {
            NetStream::Tcp(stream) => stream.flush(),
            NetStream::Unix(stream) => stream.flush(),
        }
    }
}

/// Where connections come from.
#[derive(Drop)]
pub enum NetListener {
    /// A port.
    Tcp(TcpListener),
    /// A socket in the file system, with the file that it made.
    Unix(UnixListener, Option<FileId>),
}

impl Listens for NetListener {
    type Reader = NetStream;

    type Writer = NetStream;

    // The contract of a listener says nothing of what it accepted.
    ghost did = { λ _ _. ⊤ };

    fn meet(&mut self) -> Result<Option<Peer<NetStream, NetStream>>, ServingFault> {
        let met = match self {
            NetListener::Tcp(listener) => accept_tcp(listener),
            NetListener::Unix(listener, _) => accept_unix(listener),
        };
        match met {
            Ok(peer) => Ok(Some(peer)),
            Err(error) if concerns_one(error.kind()) => Ok(None),
            Err(_) => Err(ServingFault::Net),
        }
    }

    fn part(&mut self, reader: NetStream, writer: NetStream) {
        let mut rest = reader;
        if writer.shutdown(Shutdown::Write).is_ok() {
            read_rest(&mut rest);
        }
        drop(rest);
        drop(writer);
    }
}

// Two handles of one connection: one to read, and one to write.
fn accept_tcp(listener: &TcpListener) -> io::Result<Peer<NetStream, NetStream>> {
    let (stream, _) = listener.accept()?;
    // It only makes replies faster.
    let _ = stream.set_nodelay(true);
    let writer = stream.try_clone()?;
    Ok(Peer {
        reader: NetStream::Tcp(stream),
        writer: NetStream::Tcp(writer),
    })
}

fn accept_unix(listener: &UnixListener) -> io::Result<Peer<NetStream, NetStream>> {
    let (stream, _) = listener.accept()?;
    let writer = stream.try_clone()?;
    Ok(Peer {
        reader: NetStream::Unix(stream),
        writer: NetStream::Unix(writer),
    })
}

// Reads what the peer still sends, until it has read the end of the replies and closes its side, or
// for a moment. A connection that is closed with bytes unread is reset, and the peer then loses
// what hasn't reached it of its replies.
fn read_rest(stream: &mut NetStream) {
    if stream.set_read_timeout(REST_MILLIS).is_err() {
        return;
    }
    let mut rest = [0; REST_SIZE];
    'reads: for _ in 0..MOST_RESTS {
        match stream.read(&mut rest) {
            Ok(0) | Err(_) => return,
            Ok(_) => {}
        }
    }
}

/// A file, whatever its names are.
#[derive(Clone, Copy, PartialEq, Eq)]
pub struct FileId {
    device: u64,
    number: u64,
}

/// The file at a path, if there is one. A link isn't followed.
pub(crate) fn file_at<R: Files>(files: &R, path: &str) -> Option<FileId> {
    match fs::symlink_metadata(files, path) {
        Ok(found) => Some(FileId {
            device: found.dev(),
            number: found.ino(),
        }),
        Err(_) => None,
    }
}

/// Gives up a listener. The file of a socket is removed, unless another one has its place by now.
pub(crate) fn give_up<R: Files>(files: &R, listener: NetListener) {
    match listener {
        NetListener::Tcp(listener) => drop(listener),
        NetListener::Unix(listener, made) => {
            remove_socket(files, &listener, made);
            drop(listener);
        }
    }
}

fn remove_socket<R: Files>(files: &R, listener: &UnixListener, made: Option<FileId>) {
    let Ok(address) = listener.local_addr() else {
        return;
    };
    let Some(path) = address.as_pathname() else {
        return;
    };
    if made.is_some() && made == file_at(files, path.as_str()) {
        // One that can't be removed stays.
        let _ = fs::remove_file(files, path.as_str());
    }
}
