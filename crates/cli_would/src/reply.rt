//! What answers a question.
ghost use Rattle.std.specs.Prelude.{◌≡◌, IfOk, string_bytes};
ghost use Rattle.cli_would.specs.Answering.{IsReply, refusal_line};

use cli_outcome::Status;
use room_ace::Failure;
use room_rows::Bytes;
use room_would::{WouldFault, would};
use std::alloc::{AllocError, Global};

/// The text that answers a question, and how it ends the program.
#[derive(Drop)]
pub(crate) struct Reply {
    /// The answer; or the line that says why there is none, with its end.
    pub(crate) text: Bytes,
    /// `Done` where there is an answer, and else `Refused`.
    pub(crate) status: Status,
}

/// The answer to a question, or why it is refused.
pub(crate) fn reply_to(alloc: Global, question: &[u8]) -> Result<Reply, AllocError>
    ensures { IfOk result (λ reply. IsReply question.now reply.text reply.status) }
{
    match would(alloc, question) {
        Ok(answer) => Ok(Reply {
            text: answer.into_bytes(),
            status: Status::Done,
        }),
        Err(Failure::OutOfMemory) => Err(AllocError),
        Err(Failure::Fault(fault)) => Ok(Reply {
            text: Bytes::from_vec(refusal_line(alloc, fault)?.into_bytes()),
            status: Status::Refused,
        }),
    }
}

// The line of a fault, with its end.
fn refusal_line(alloc: Global, fault: WouldFault) -> Result<String, AllocError>
    ensures { IfOk result (λ line. string_bytes line ≡ refusal_line fault) }
{
    format!(in alloc; "refused: {fault}\n")
}
