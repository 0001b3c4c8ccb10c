//! The room of a database, served at an address.
ghost use Rattle.std.specs.Prelude.{◌≡◌, false};
ghost use Rattle.sqlite.specs.Held.{state};
ghost use Rattle.cli_serve.specs.Hosts.{Hosts};

use cli_listen::{Moments, NetPorts, Ports, Seconds, Service, serve_at, tell_end, tell_opening};
use cli_outcome::ListenAddress;
use room_store::Store;
use room_store::laws::{what_is_committed_lasts, what_is_seen_lasts};
use sqlite::{Alter, Connection};
use std::alloc::Global;
use std::io::Write;

/// Serves `count` connections to the room of the database, at this address, one after the other. It
/// returns the connection, with no transaction open, and the status: 0 where all is done, 2 where
/// the database holds no room of this version, which is printed on `out`, and 3 at a fault, which is
/// printed on `err`. A fault of the disk that shuts the connection ends the service after the
/// client's connection that met it; any other fault of a request doesn't. A power cut leaves all
/// requests that were answered, and at most one that wasn't, as a whole: at any moment, by the
/// argument that `docs/statement.md` has among its premises.
pub fn host<S: Alter, P: Ports, M: Moments, O: Write, E: Write>(
    alloc: Global,
    conn: Connection<S>,
    service: &mut Service<'_, P, M>,
    out: &mut O,
    err: &mut E,
) -> (Connection<S>, u8)
    requires { conn.in_transaction ≡ false }
    ensures hosts { Hosts (state S.Store) service.old.address service.old.count
        (M.told service.old.clock) (M.told service.new.clock)
        (P.did service.old.ports) (P.did service.new.ports) conn result.0
        (O.contents out.old) (O.contents out.new) (E.contents err.old) (E.contents err.new)
        result.1 }
    ensures ended { result.0.in_transaction ≡ false }
{
    what_is_committed_lasts(&conn);
    let mut store = match Store::adopt(conn) {
        Ok(store) => store,
        Err((conn, fault)) => {
            let status = tell_opening(alloc, fault, out, err);
            return (conn, status);
        }
    };
    what_is_seen_lasts(&store);
    let end = serve_at(alloc, &mut store, service, out, err);
    let status = tell_end(end, err);
    let conn = store.into_conn();
    (conn, status)
}

/// The same on the ports and by the clock of the system, with its allocator and its two streams.
/// What `host` promises is proved for any database and any of these; nothing of it but its end is
/// asked for here, so that none of it is proved once more.
pub fn host_on<S: Alter>(
    rt: &HostRuntime,
    conn: Connection<S>,
    address: ListenAddress<'_>,
    count: u32,
) -> (Connection<S>, u8)
    requires { conn.in_transaction ≡ false }
    ensures { result.0.in_transaction ≡ false }
{
    let mut out = rt.stdout();
    let mut err = rt.stderr();
    let mut service = Service {
        ports: NetPorts::of(rt),
        clock: Seconds::of(rt),
        address,
        count,
    };
    host(rt.alloc(), conn, &mut service, &mut out, &mut err)
}
