//! Where ports and sockets are bound.
ghost use Rattle.std.specs.Prelude.{IfOk, List, [], ◌∷◌, ⊤};
ghost use Rattle.std.specs.Net.Addr.{ipv4_octets};
ghost use Rattle.cli_listen.specs.Peers.{Act, Adds};
ghost use Rattle.cli_listen.specs.Listening.{Deed, Site, asked_by};

use crate::accepting::Listens;
use crate::sockets::{NetListener, file_at, give_up};
use std::fs::Files;
use std::io;
use std::io::ErrorKind;
use std::net::{Ipv4Addr, Net, TcpListener, TcpStream};
use std::os::unix::net::UnixListener;

/// Where ports and sockets are bound.
pub trait Ports {
    /// It can't be dropped: whoever has it gives it back.
    type Listener: Listens;

    // Whether these may have been done here, in order: sites that were asked for, and all that
    // listeners did that were given back.
    ghost did: { Self → List Deed → Type 0 };

    /// A listener at a port of an IP address, which has done nothing yet, or the error of the
    /// network.
    fn bind(&mut self, ip: Ipv4Addr, port: u16) -> io::Result<Self::Listener>
        ensures did { Adds (did self.old) (did self.new)
            (asked_by result (Site.Port (ipv4_octets ip) port) ∷ []) }
        ensures begins { IfOk result (λ listener. Self.Listener.did listener []) };

    /// A listener at a socket whose file is made at this path, which has done nothing yet, or the
    /// error of the network. Where there is a file already, that is an error.
    fn bind_path(&mut self, path: &str) -> io::Result<Self::Listener>
        ensures did { Adds (did self.old) (did self.new)
            (asked_by result (Site.Socket path.now) ∷ []) }
        ensures begins { IfOk result (λ listener. Self.Listener.did listener []) };

    /// Takes a listener back, which accepts nobody any more.
    fn close(&mut self, listener: Self::Listener)
        ensures { (acts : List Act) → Self.Listener.did listener acts
            → Adds (did self.old) (did self.new) (Deed.Closed acts ∷ []) };
}

/// The ports and the sockets of a system.
#[derive(Drop)]
pub struct NetPorts<'a, R> {
    system: &'a R,
}

impl<'a, R> NetPorts<'a, R>
where
    R: Files + Net<Listener = TcpListener, Stream = TcpStream>,
{
    /// The ports and the sockets of this system.
    pub fn of(system: &'a R) -> NetPorts<'a, R> {
        NetPorts { system }
    }
}

impl<R> Ports for NetPorts<'_, R>
where
    R: Files + Net<Listener = TcpListener, Stream = TcpStream>,
{
    type Listener = NetListener;

    // The contract of a system says nothing of what it is asked for.
    ghost did = { λ _ _. ⊤ };

    fn bind(&mut self, ip: Ipv4Addr, port: u16) -> io::Result<NetListener> {
        let listener = TcpListener::bind(self.system, (ip, port))?;
        Ok(NetListener::Tcp(listener))
    }

    fn bind_path(&mut self, path: &str) -> io::Result<NetListener> {
        // For an empty path the system would choose a name that no file has.
        if path.is_empty() {
            return Err(io::Error::from(ErrorKind::InvalidInput));
        }
        let listener = UnixListener::bind(self.system, path)?;
        Ok(NetListener::Unix(listener, file_at(self.system, path)))
    }

    fn close(&mut self, listener: NetListener) {
        give_up(self.system, listener);
    }
}
