//! An address is bound, and connections are served there.
ghost use Rattle.std.specs.Prelude.{◌≡◌, IfOk, OnOk, [], ◌∷◌};
ghost use Rattle.cli_listen.specs.Lines.{TellsAddress};
ghost use Rattle.cli_listen.specs.Peers.{Adds};
ghost use Rattle.cli_listen.specs.Staying.{ServedHere};
ghost use Rattle.cli_listen.specs.Listening.{asked_by, site_of};

use crate::fault::ServingFault;
use crate::moment::Moments;
use crate::ports::Ports;
use crate::serving::{Listening, serve_on};
use cli_outcome::ListenAddress;
use room_machine::Desk;
use std::alloc::Global;
use std::io;
use std::io::Write;
use std::net::Ipv4Addr;

/// What is served, and what of the system it takes.
#[derive(Drop)]
pub struct Service<'a, P, M> {
    /// Where the address is bound.
    pub ports: P,
    /// Where the moments of connections come from.
    pub clock: M,
    pub address: ListenAddress<'a>,
    /// How many connections are served.
    pub count: u32,
}

/// Binds the address, serves `count` connections at the desk as `serve_on` does, and gives the
/// address up. The error is that of `serve_on`, or `Net` where the address can't be had.
pub fn serve_at<D: Desk, P: Ports, M: Moments, O: Write, E: Write>(
    alloc: Global,
    desk: &mut D,
    service: &mut Service<'_, P, M>,
    out: &mut O,
    err: &mut E,
) -> Result<(), ServingFault>
    ensures served { ServedHere D.Desk service.old.address service.old.count
        (M.told service.old.clock) (M.told service.new.clock)
        (P.did service.old.ports) (P.did service.new.ports)
        desk.old desk.new (O.contents out.old) (O.contents out.new)
        (E.contents err.old) (E.contents err.new) result }
    ensures told { OnOk result
        (TellsAddress service.old.address (O.contents out.old) (O.contents out.new)) }
{
    let Ok(listener) = bind_at(&mut service.ports, &service.address) else {
        return Err(ServingFault::Net);
    };
    let mut listening = Listening {
        listener,
        address: service.address,
        count: service.count,
    };
    let end = serve_on(alloc, desk, &mut service.clock, &mut listening, out, err);
    service.ports.close(listening.listener);
    end
}

// A listener at the address, which has done nothing yet.
fn bind_at<P: Ports>(ports: &mut P, address: &ListenAddress<'_>) -> io::Result<P::Listener>
    ensures did { Adds (P.did ports.old) (P.did ports.new)
        (asked_by result (site_of address.now) ∷ []) }
    ensures begins { IfOk result (λ listener. P.Listener.did listener []) }
{
    match address {
        ListenAddress::Port(port) => ports.bind(Ipv4Addr::LOCALHOST, *port),
        ListenAddress::Socket(path) => ports.bind_path(*path),
    }
}
