//! Where connections come from.
ghost use Rattle.std.specs.Prelude.{◌≡◌, IfErr, List, [], ◌∷◌, ◌++◌};
ghost use Rattle.cli_listen.specs.Accepting.{concerns_one};
ghost use Rattle.cli_listen.specs.Peers.{Act, Adds, met_by, wire};

use crate::fault::ServingFault;
use std::io::{ErrorKind, Read, Write};

/// A connection that was accepted: what its peer sends, and what the peer gets.
#[derive(Drop)]
pub struct Peer<R, W> {
    pub reader: R,
    pub writer: W,
}

/// Where connections come from.
pub trait Listens {
    type Reader: Read + Drop;

    type Writer: Write + Drop;

    // Whether it may have done these, in order.
    ghost did: { Self → List Act → Type 0 };

    /// The next peer, or none where the connection was lost before it could be accepted. At an
    /// error no connection can be accepted any more.
    fn meet(&mut self) -> Result<Option<Peer<Self::Reader, Self::Writer>>, ServingFault>
        ensures met { Adds (did self.old) (did self.new) (met_by result (λ peer.
            wire (Self.Reader.remaining peer.reader) (Self.Writer.contents peer.writer))) }
        ensures fault { IfErr result (λ fault. fault ≡ ServingFault.Net) };

    /// Parts from a peer.
    fn part(&mut self, reader: Self::Reader, writer: Self::Writer)
        ensures { Adds (did self.old) (did self.new) (Act.Parted
            (wire (Self.Reader.remaining reader) (Self.Writer.contents writer)) ∷ []) };
}

// Whether an error of an accept concerns only the connection that would have been accepted. Then
// the next one can be accepted.
pub(crate) fn concerns_one(kind: ErrorKind) -> bool
    ensures { result ≡ concerns_one kind }
{
    matches!(
        kind,
        ErrorKind::Interrupted
            | ErrorKind::ConnectionAborted
            | ErrorKind::ConnectionReset
            | ErrorKind::TimedOut
            | ErrorKind::HostUnreachable
            | ErrorKind::NetworkUnreachable
            | ErrorKind::NetworkDown
    )
}
