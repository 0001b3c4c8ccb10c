//! Connections one after another.
ghost use Rattle.std.specs.Prelude.{◌≡◌, ◌+◌, List, [], ◌∷◌, Err, IfErr, IfOk, IsTrue, OnOk, false};
ghost use Rattle.std.specs.Option.{is_some};
ghost use Rattle.std.specs.Io.KnownBytes.{Appends};
ghost use Rattle.cli_outcome.specs.Written.{WritesSome};
ghost use Rattle.room_http.specs.Stream.{DeskRuns};
ghost use Rattle.cli_listen.specs.Lines.{TellsOf, TellsAddress};
ghost use Rattle.cli_listen.specs.Peers.{Act, Adds, Wire, wire};
ghost use Rattle.cli_listen.specs.Staying.{AttendsOne, Passes, Served, ServedAt, TellsShut};
ghost use Rattle.cli_listen.specs.Visits.{Attends, Meeting, Receives, ReceivesOne, sources, until};

use crate::accepting::{Listens, Peer};
use crate::fault::ServingFault;
use crate::lines::{tell_address, tell_fault};
use crate::moment::Moments;
use cli_outcome::ListenAddress;
use http_message::Routes;
use room_http::{Cause, serve};
use room_machine::Desk;
use std::alloc::Global;
use std::io::{Read, Write};

/// Where connections are accepted, and how many.
#[derive(Drop)]
pub struct Listening<'a, L> {
    pub listener: L,
    /// The address of the listener.
    pub address: ListenAddress<'a>,
    pub count: u32,
}

/// Serves `count` connections of the listener, one after another. First it prints on `out` that it
/// listens at `address`. The clock is read once for each connection, when it is accepted: this is
/// the moment of its requests. A fault of a connection is printed on `err`, and the next one is
/// served. A connection that is lost before it is accepted counts as one whose reading failed.
///
/// After each connection the desk is asked whether it is shut. While it isn't, or couldn't find
/// out, the next connection is accepted, whatever fault it had.
///
/// The error is `Memory` where nothing was served or printed, `Net` where the listener accepts no
/// more connections, `Desk` where a connection left the desk shut, and `File` where a line couldn't
/// be printed.
pub fn serve_on<D: Desk, L: Listens, M: Moments, O: Write, E: Write>(
    alloc: Global,
    desk: &mut D,
    clock: &mut M,
    listening: &mut Listening<'_, L>,
    out: &mut O,
    err: &mut E,
) -> Result<(), ServingFault>
    ensures served { ServedAt D.Desk listening.old.address listening.old.count
        (sources (M.told clock.old) (L.did listening.old.listener))
        (sources (M.told clock.new) (L.did listening.new.listener))
        desk.old desk.new (O.contents out.old) (O.contents out.new)
        (E.contents err.old) (E.contents err.new) result }
    ensures told { OnOk result
        (TellsAddress listening.old.address (O.contents out.old) (O.contents out.new)) }
{
    let Ok(routes) = Routes::new(alloc) else {
        return Err(ServingFault::Memory);
    };
    let count = listening.count;
    if tell_address(out, &listening.address) {
        serve_each(&routes, desk, clock, &mut listening.listener, count, err)
    } else {
        Err(ServingFault::File)
    }
}

// Serves `count` connections, and prints the fault of each that has one. One that leaves the desk
// shut is the last. If a fault couldn't be printed, this is the error once all are served.
fn serve_each<D: Desk, L: Listens, M: Moments, E: Write>(
    routes: &Routes,
    desk: &mut D,
    clock: &mut M,
    listener: &mut L,
    count: u32,
    err: &mut E,
) -> Result<(), ServingFault>
    ensures served { Served D.Desk count (sources (M.told clock.old) (L.did listener.old))
        (sources (M.told clock.new) (L.did listener.new)) desk.old desk.new
        (E.contents err.old) (E.contents err.new) result }
    ensures fault { IfErr result (λ fault. fault ≡ ServingFault.Memory → ⊥) }
{
    let mut all_printed = true;
    'connections: for number in 0..count {
        let left = match pass(routes, desk, clock, listener) {
            Ok(left) => left,
            Err(fault) => return Err(fault),
        };
        let printed = is_printed(err, number, left.lost);
        if left.shut {
            return Err(ServingFault::Desk);
        }
        all_printed = all_printed && printed;
    }
    if all_printed {
        Ok(())
    } else {
        Err(ServingFault::File)
    }
}

// Whether the fault of the connection after `before` others was printed in whole, if it had one.
fn is_printed<E: Write>(err: &mut E, before: u32, lost: Option<Cause>) -> bool
    ensures whole { IsTrue result
        → TellsOf Appends (before + 1) lost (E.contents err.old) (E.contents err.new) }
    ensures some { TellsOf WritesSome (before + 1) lost (E.contents err.old) (E.contents err.new) }
    ensures due { result ≡ false → IsTrue (is_some lost) }
{
    match lost {
        Some(cause) => tell_fault(err, u64::from(before) + 1, cause),
        None => true,
    }
}

// What a connection left: the fault that ended it, if one did, and whether the desk is shut.
#[derive(Clone, Copy)]
struct Left {
    lost: Option<Cause>,
    shut: bool,
}

// Accepts and serves one connection, and asks the desk whether it is shut.
fn pass<D: Desk, L: Listens, M: Moments>(
    routes: &Routes,
    desk: &mut D,
    clock: &mut M,
    listener: &mut L,
) -> Result<Left, ServingFault>
    ensures received { IfOk result (λ left. ReceivesOne D.Desk left.lost
        (sources (M.told clock.old) (L.did listener.old))
        (sources (M.told clock.new) (L.did listener.new)) desk.old desk.new) }
    ensures leaves { IfOk result (λ left. Passes D.Desk desk.old desk.new left.shut) }
    ensures fault { IfErr result (λ fault. (fault ≡ ServingFault.Net) × (desk.new ≡ desk.old)
        × Receives D.Desk 0 (sources (M.told clock.old) (L.did listener.old))
        (until (Err ServingFault.Net) (sources (M.told clock.new) (L.did listener.new)))
        desk.old desk.new) }
{
    let lost = serve_next(routes, desk, clock, listener)?;
    let shut = says_shut(desk);
    Ok(Left { lost, shut })
}

// Whether the desk says that it is shut. Where it couldn't find out, it is asked again after the
// next connection.
fn says_shut<D: Desk>(desk: &mut D) -> bool
    ensures rests { DeskRuns D.Desk desk.old [] [] desk.new }
    ensures tells { TellsShut D.Desk desk.old desk.new result }
{
    match desk.is_shut() {
        Ok(shut) => shut,
        Err(_) => false,
    }
}

// Accepts and serves one connection, and answers what fault ended it, if one did.
fn serve_next<D: Desk, L: Listens, M: Moments>(
    routes: &Routes,
    desk: &mut D,
    clock: &mut M,
    listener: &mut L,
) -> Result<Option<Cause>, ServingFault>
    ensures received { IfOk result (λ lost. ReceivesOne D.Desk lost
        (sources (M.told clock.old) (L.did listener.old))
        (sources (M.told clock.new) (L.did listener.new)) desk.old desk.new) }
    ensures attends { OnOk result (AttendsOne D.Desk desk.old desk.new) }
    ensures fault { IfErr result (λ fault. (fault ≡ ServingFault.Net) × (desk.new ≡ desk.old)
        × Receives D.Desk 0 (sources (M.told clock.old) (L.did listener.old))
        (until (Err ServingFault.Net) (sources (M.told clock.new) (L.did listener.new)))
        desk.old desk.new) }
{
    match listener.meet() {
        Ok(Some(peer)) => Ok(serve_peer(routes, desk, clock.next(), listener, peer)),
        Ok(None) => {
            // one that is lost has its moment too
            clock.next();
            Ok(Some(Cause::Read))
        }
        Err(fault) => Err(fault),
    }
}

// Serves the peer, parts from it, and answers what fault ended its connection, if one did.
fn serve_peer<D: Desk, L: Listens>(
    routes: &Routes,
    desk: &mut D,
    moment: i64,
    listener: &mut L,
    peer: Peer<L::Reader, L::Writer>,
) -> Option<Cause>
    ensures { (has : Wire) × Attends D.Desk moment (Meeting.Met (wire
        (L.Reader.remaining peer.reader) (L.Writer.contents peer.writer)) has) result
        desk.old desk.new × Adds (L.did listener.old) (L.did listener.new) (Act.Parted has ∷ []) }
{
    let Peer {
        mut reader,
        mut writer,
    } = peer;
    let lost = serve_stream(routes, desk, moment, &mut reader, &mut writer);
    listener.part(reader, writer);
    lost
}

// Serves one connection, and answers what fault ended it, if one did.
fn serve_stream<D: Desk, R: Read, W: Write>(
    routes: &Routes,
    desk: &mut D,
    moment: i64,
    reader: &mut R,
    writer: &mut W,
) -> Option<Cause>
    ensures { Attends D.Desk moment
        (Meeting.Met (wire (R.remaining reader.old) (W.contents writer.old))
        (wire (R.remaining reader.new) (W.contents writer.new))) result desk.old desk.new }
{
    match serve(routes, desk, moment, reader, writer) {
        Ok(_) => None,
        Err(fault) => Some(fault.cause),
    }
}
