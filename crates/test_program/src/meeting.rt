//! Clients that have sent everything before a connection is accepted, and writers that fail.
use cli_listen::{Listening, Moments, NetListener, ServingFault, serve_on};
use cli_outcome::ListenAddress;
use room_machine::Desk;
use std::alloc::Global;
use std::io;
use std::io::{Read, Write};
use std::net::{Net, Shutdown, TcpListener, TcpStream};
use std::os::fd::OwnedFd;
use std::test::Fail;
use std::time::Duration;

/// The first message of `put-twice`.
pub const PUT: &[u8] = b"\
PUT /doc/f HTTP/1.1\r\nRoom-User: root\r\nContent-Length: 5\r\n\r\nhello";

/// The reply where the document is new.
pub const MADE: &[u8] = b"HTTP/1.1 201 Created\r\nContent-Length: 0\r\n\r\n";

/// The reply where the document was there.
pub const DONE: &[u8] = b"HTTP/1.1 204 No Content\r\n\r\n";

/// A listener at a port that is free.
pub fn listens<N>(net: &N) -> Result<TcpListener, Fail>
where
    N: Net<Listener = TcpListener, Stream = TcpStream>,
{
    Ok(TcpListener::bind(net, "127.0.0.1:0")?)
}

/// A client that sends nothing.
pub fn connects<N>(net: &N, listener: &TcpListener) -> Result<TcpStream, Fail>
where
    N: Net<Listener = TcpListener, Stream = TcpStream>,
{
    Ok(TcpStream::connect(net, listener.local_addr()?)?)
}

/// A client that has sent these bytes, and sends no more.
pub fn sends<N>(net: &N, listener: &TcpListener, bytes: &[u8]) -> Result<TcpStream, Fail>
where
    N: Net<Listener = TcpListener, Stream = TcpStream>,
{
    let mut client = connects(net, listener)?;
    client.write_all(bytes)?;
    client.shutdown(Shutdown::Write)?;
    Ok(client)
}

/// Tests that the client got these bytes and no more.
pub fn gets(alloc: Global, mut client: TcpStream, wanted: &[u8]) -> Result<(), Fail> {
    let mut reply = Vec::new(alloc);
    client.read_to_end(&mut reply)?;
    same_bytes(reply.as_slice(), wanted)
}

/// Tests that the bytes are the expected ones.
pub fn same_bytes(told: &[u8], wanted: &[u8]) -> Result<(), Fail> {
    if told == wanted {
        return Ok(());
    }
    let told = str::from_utf8(told).unwrap_or("no text");
    let wanted = str::from_utf8(wanted).unwrap_or("no text");
    Err(Fail::new(format_args!("{told:?}, where wanted is {wanted:?}")))
}

/// A writer that takes nothing.
#[derive(Drop)]
pub struct Full;

impl Write for Full {
    fn write(&mut self, _bytes: &[u8]) -> io::Result<usize> {
        Err(io::Error::from(io::ErrorKind::StorageFull))
    }

    fn flush(&mut self) -> io::Result<()> {
        Ok(())
    }
}

/// So many connections of the listener, as if it were at port 8780.
pub fn listening(
    listener: &TcpListener,
    count: u32,
) -> Result<Listening<'static, NetListener>, Fail> {
    Ok(Listening {
        listener: NetListener::Tcp(listener.try_clone()?),
        address: ListenAddress::Port(8780),
        count,
    })
}

/// Serves `count` connections. What it prints of them has to be this.
pub fn serves<D: Desk, M: Moments>(
    alloc: Global,
    desk: &mut D,
    clock: &mut M,
    listener: &TcpListener,
    count: u32,
    faults: &str,
) -> Result<(), Fail> {
    let mut out = Vec::new(alloc);
    let mut err = Vec::new(alloc);
    let mut listening = listening(listener, count)?;
    let end = serve_on(alloc, desk, clock, &mut listening, &mut out, &mut err);
    if end != Ok(()) {
        return Err(Fail::from("a fault of the whole"));
    }
    same_bytes(err.as_slice(), faults.as_bytes())?;
    same_bytes(out.as_slice(), b"listening 127.0.0.1:8780\n")
}

/// Serves `count` connections with a writer for faults that takes nothing.
pub fn serves_untold<D: Desk, M: Moments>(
    alloc: Global,
    desk: &mut D,
    clock: &mut M,
    listener: &TcpListener,
    count: u32,
) -> Result<Result<(), ServingFault>, Fail> {
    let mut out = Vec::new(alloc);
    let mut listening = listening(listener, count)?;
    Ok(serve_on(alloc, desk, clock, &mut listening, &mut out, &mut Full))
}

/// From now on a read on a connection that waits soon ends in an error: the connections of a
/// listener have its socket's options.
pub fn grows_impatient(listener: &TcpListener) -> Result<(), Fail> {
    let socket = TcpStream::from(OwnedFd::from(listener.try_clone()?));
    socket.set_read_timeout(Some(Duration::from_millis(20)))?;
    Ok(())
}
