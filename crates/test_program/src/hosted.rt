//! The subcommand `serve` on a database in memory.
ghost use Rattle.std.specs.Prelude.{⊤};

use crate::meeting::{DONE, Full, MADE, PUT, gets, listens, same_bytes, sends};
use cli_listen::{NetListener, Ports, Seconds, Service};
use cli_outcome::ListenAddress;
use cli_serve::host;
use room_ace::{Owners, read_name};
use room_store::Store;
use sqlite::{Connection, MemStore};
use std::alloc::Global;
use std::io;
use std::io::Write;
use std::net::{Ipv4Addr, TcpListener};
use std::rt::Clock;
use std::test::Fail;
use std::time::Duration;

// The address of most tests.
const PORT: ListenAddress<'static> = ListenAddress::Port(8780);

// Where one address can be bound, at which clients wait already.
#[derive(Clone, Copy, Drop)]
struct OneAddress<'a> {
    listener: &'a TcpListener,
    address: ListenAddress<'a>,
}

impl OneAddress<'_> {
    fn ask(&self, is_there: bool) -> io::Result<NetListener> {
        if is_there {
            Ok(NetListener::Tcp(self.listener.try_clone()?))
        } else {
            Err(io::Error::from(io::ErrorKind::AddrInUse))
        }
    }
}

impl Ports for OneAddress<'_> {
    type Listener = NetListener;

    ghost did = { λ _ _. ⊤ };

    fn bind(&mut self, ip: Ipv4Addr, port: u16) -> io::Result<NetListener> {
        self.ask(ip == Ipv4Addr::LOCALHOST && self.address == ListenAddress::Port(port))
    }

    fn bind_path(&mut self, path: &str) -> io::Result<NetListener> {
        self.ask(self.address == ListenAddress::Socket(path))
    }

    fn close(&mut self, listener: NetListener) {
        drop(listener);
    }
}

// A clock that stands still.
#[derive(Drop)]
struct Still;

impl Clock for Still {
    fn monotonic(&self) -> io::Result<Duration> {
        Ok(Duration::from_secs(1000))
    }

    fn since_1970(&self) -> io::Result<Duration> {
        Ok(Duration::from_secs(1000))
    }
}

// What has to be printed, and the status.
#[derive(Clone, Copy)]
struct Wanted<'a> {
    out: &'a str,
    err: &'a str,
    status: u8,
}

fn new_room(alloc: Global) -> Result<Connection<MemStore>, Fail> {
    let owner = read_name(alloc, "root").ok().ok_or("memory")?;
    let group = read_name(alloc, "staff").ok().ok_or("memory")?;
    let owners = Owners { owner, group };
    created(Connection::open_in_memory(alloc)?, &owners)
}

fn created(conn: Connection<MemStore>, owners: &Owners) -> Result<Connection<MemStore>, Fail> {
    if !conn.is_autocommit() {
        return Err(Fail::from("in a transaction"));
    }
    match Store::create(conn, owners) {
        Ok(store) => Ok(store.into_conn()),
        Err(_) => Err(Fail::from("no room")),
    }
}

// A database in which these statements were run.
fn after(mut conn: Connection<MemStore>, text: &str) -> Result<Connection<MemStore>, Fail> {
    conn.execute_batch(text)?;
    Ok(conn)
}

// Hosts two connections at this address, and compares what is printed.
fn hosts(
    alloc: Global,
    conn: Connection<MemStore>,
    ports: &OneAddress<'_>,
    address: ListenAddress<'_>,
    wanted: &Wanted<'_>,
) -> Result<Connection<MemStore>, Fail> {
    if !conn.is_autocommit() {
        return Err(Fail::from("in a transaction"));
    }
    let mut out = Vec::new(alloc);
    let mut err = Vec::new(alloc);
    let still = Still;
    let mut service = Service {
        ports: *ports,
        clock: Seconds::of(&still),
        address,
        count: 2,
    };
    let (conn, status) = host(alloc, conn, &mut service, &mut out, &mut err);
    same_bytes(out.as_slice(), wanted.out.as_bytes())?;
    same_bytes(err.as_slice(), wanted.err.as_bytes())?;
    if status == wanted.status {
        return Ok(conn);
    }
    Err(Fail::new(format_args!("status {status}")))
}

// Hosts where standard output takes nothing.
fn hosts_untold(
    alloc: Global,
    conn: Connection<MemStore>,
    ports: &OneAddress<'_>,
) -> Result<(), Fail> {
    if !conn.is_autocommit() {
        return Err(Fail::from("in a transaction"));
    }
    let mut err = Vec::new(alloc);
    let still = Still;
    let mut service = Service {
        ports: *ports,
        clock: Seconds::of(&still),
        address: PORT,
        count: 2,
    };
    let (_, status) = host(alloc, conn, &mut service, &mut Full, &mut err);
    same_bytes(err.as_slice(), b"fault: file\n")?;
    if status == 3 {
        return Ok(());
    }
    Err(Fail::new(format_args!("status {status}")))
}

#[test]
fn a_room_is_served_and_kept(rt: HostRuntime) -> Result<(), Fail> {
    let alloc = rt.alloc();
    let listener = listens(&rt)?;
    let first = sends(&rt, &listener, PUT)?;
    let second = sends(&rt, &listener, PUT)?;
    let third = sends(&rt, &listener, PUT)?;
    let fourth = sends(&rt, &listener, PUT)?;
    let wanted = Wanted {
        out: "listening 127.0.0.1:8780\n",
        err: "",
        status: 0,
    };
    let ports = OneAddress {
        listener: &listener,
        address: PORT,
    };
    let conn = hosts(alloc, new_room(alloc)?, &ports, PORT, &wanted)?;
    let _conn = hosts(alloc, conn, &ports, PORT, &wanted)?;
    gets(alloc, first, MADE)?;
    gets(alloc, second, DONE)?;
    gets(alloc, third, DONE)?;
    gets(alloc, fourth, DONE)
}

#[test]
fn a_room_is_served_at_a_socket(rt: HostRuntime) -> Result<(), Fail> {
    let alloc = rt.alloc();
    let listener = listens(&rt)?;
    let first = sends(&rt, &listener, PUT)?;
    let second = sends(&rt, &listener, PUT)?;
    let wanted = Wanted {
        out: "listening /run/a room/socket\n",
        err: "",
        status: 0,
    };
    let address = ListenAddress::Socket("/run/a room/socket");
    let ports = OneAddress {
        listener: &listener,
        address,
    };
    let _conn = hosts(alloc, new_room(alloc)?, &ports, address, &wanted)?;
    gets(alloc, first, MADE)?;
    gets(alloc, second, DONE)
}

#[test]
fn an_address_that_is_taken(rt: HostRuntime) -> Result<(), Fail> {
    let listener = listens(&rt)?;
    let ports = OneAddress {
        listener: &listener,
        address: ListenAddress::Port(8781),
    };
    let wanted = Wanted {
        out: "",
        err: "fault: net\n",
        status: 3,
    };
    let _conn = hosts(rt.alloc(), new_room(rt.alloc())?, &ports, PORT, &wanted)?;
    let socket = ListenAddress::Socket("room.socket");
    let _conn = hosts(rt.alloc(), new_room(rt.alloc())?, &ports, socket, &wanted)?;
    Ok(())
}

// Tests that the database is refused, as this says.
fn refuses(alloc: Global, ports: &OneAddress<'_>, text: &str, out: &str) -> Result<(), Fail> {
    let conn = after(new_room(alloc)?, text)?;
    let wanted = Wanted {
        out,
        err: "",
        status: 2,
    };
    let _conn = hosts(alloc, conn, ports, PORT, &wanted)?;
    Ok(())
}

#[test]
fn no_room_of_this_version(rt: HostRuntime) -> Result<(), Fail> {
    let listener = listens(&rt)?;
    let ports = OneAddress {
        listener: &listener,
        address: PORT,
    };
    let cases = [
        ("DROP TABLE meta", "refused: not a rooms file\n"),
        ("UPDATE meta SET value = 1", "refused: schema 1 is old\n"),
        ("UPDATE meta SET value = -7", "refused: schema -7 is old\n"),
        ("UPDATE meta SET value = 3", "refused: schema 3 is new\n"),
    ];
    'cases: for (text, out) in &cases {
        refuses(rt.alloc(), &ports, *text, *out)?;
    }
    Ok(())
}

#[test]
fn lines_that_cannot_be_told(rt: HostRuntime) -> Result<(), Fail> {
    let alloc = rt.alloc();
    let listener = listens(&rt)?;
    let ports = OneAddress {
        listener: &listener,
        address: PORT,
    };
    hosts_untold(alloc, new_room(alloc)?, &ports)?;
    hosts_untold(alloc, after(new_room(alloc)?, "DROP TABLE meta")?, &ports)
}
