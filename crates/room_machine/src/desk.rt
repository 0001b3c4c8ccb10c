//! The desk: what answers requests, one step of the room machine for each.
ghost use Rattle.std.specs.Prelude.{◌≡◌, ℕ, List, [], IfOk, OnOk};
ghost use Rattle.std.specs.Option.{option_copied};
ghost use Rattle.room_rows.specs.Content.{Content};
ghost use Rattle.room_rows.specs.Rows.{Rows};
ghost use Rattle.room_machine.specs.Desk.{Agrees, Closes, DeskLaws, Steps, fault_counted};
ghost use Rattle.room_machine.specs.Run.{Asking, Event, event_of, unanswered};

use crate::reply::Reply;
use crate::request::Request;
use room_ace::Name;
use std::alloc::Global;

/// The desk could not answer: memory ran out, or its store failed.
#[derive(Debug, Drop)]
pub struct DeskFault;

/// What answers requests.
pub trait Desk {
    // This is what the desk keeps, as far as it is known.
    ghost content: { Self → Content → Type 0 };

    // What the desk has stored are rows of a room, sound or not.
    ghost formed: { Self → Type 0 };

    // These are the rows that the desk has stored, as far as they are known.
    ghost stored: { Self → Rows → Type 0 };

    // What the desk keeps is sound.
    ghost sound: { Self → Type 0 };

    // Up to now, storage has returned what the desk wrote there. It is known of a later state
    // first.
    ghost trusted: { Self → Type 0 };

    // It answers no request any more, whatever comes.
    ghost shut: { Self → Type 0 };

    // How often a call has answered a fault, at most the greatest number of 64 bits.
    ghost faults: { Self → ℕ };

    // From the first state to the second these were asked for and got no answer, and these
    // happened. A desk that keeps its content on a disk says by it what a power cut leaves of them.
    ghost Outlasts: { Self → List Asking → List Event → Self → Type 0 };

    /// Carries out one request of a caller, who is anonymous without a name, at a moment in seconds
    /// from 1970-01-01 00:00 UTC. A denial or a refusal is a reply. The error is a fault of the
    /// desk, which leaves what is kept as it was. Of damaged rows too, nothing is served, shown or
    /// changed that the lists that they store don't grant, and nothing else is changed.
    fn run(
        &mut self,
        alloc: Global,
        caller: Option<&Name>,
        moment: i64,
        request: &Request,
    ) -> Result<Reply, DeskFault>
        ensures trusted { trusted self.new → trusted self.old }
        ensures step { trusted self.new → sound self.old → Steps (content self.old)
            (option_copied caller.entry) moment request.now result (content self.new) }
        ensures sound { trusted self.new → sound self.old → sound self.new }
        ensures closed { trusted self.new → Closes (stored self.old)
            (option_copied caller.entry) moment request.now result (stored self.new) }
        ensures faults { faults self.new ≡ fault_counted result (faults self.old) }
        ensures shut { shut self.old → shut self.new × (trusted self.new → OnOk result ⊥) }
        ensures outlasts { Outlasts self.old
            (unanswered result (Event.Asked (option_copied caller.entry) moment request.now))
            (event_of result (Event.Asked (option_copied caller.entry) moment request.now))
            self.new };

    /// Whether the desk is shut: a fault of its store may have left it so that it answers no
    /// request any more. What it keeps stays as it was. The error is that the desk couldn't find
    /// out, since memory ran out.
    fn is_shut(&mut self) -> Result<bool, DeskFault>
        ensures trusted { trusted self.new → trusted self.old }
        ensures kept { trusted self.new → (room : Content) → content self.old room
            → content self.new room }
        ensures sound { trusted self.new → sound self.old → sound self.new }
        ensures held { trusted self.new → (rows : Rows) → stored self.old rows
            → stored self.new rows }
        ensures faults { faults self.new ≡ fault_counted result (faults self.old) }
        ensures told { IfOk result (λ told. Agrees (trusted self.new) (shut self.new) told) }
        ensures outlasts { Outlasts self.old [] [] self.new };

    // There is a content that the desk keeps.
    ghost keeps: { (desk : Self) → (room : Content) × content desk room };

    // There are rows that the desk has stored, sound or not.
    ghost holds: { (desk : Self) → formed desk → (rows : Rows) × stored desk rows };

    // What outlasts is said of a state and itself, and of states one after the other.
    ghost laws: { DeskLaws Outlasts };
}
