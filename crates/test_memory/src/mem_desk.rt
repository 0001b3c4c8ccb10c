//! A desk over a keeper in memory.
ghost use Rattle.std.specs.Prelude.{◌≡◌, IfOk, ⊤, refl};
ghost use Rattle.std.specs.Option.{option_copied};
ghost use Rattle.room_rows.specs.Keep.{one_more};
ghost use Rattle.room_memory.specs.Memory.{rows_in};
ghost use Rattle.test_memory.specs.Memory.{
  content_in,
  HasRows,
  IsFormed,
  IsSoundKeep,
  Tries,
  TriesClosed,
};

use room_ace::Name;
use room_desk::perform;
use room_machine::{Desk, DeskFault, Reply, Request};
use room_rows::KeepFault;
use std::alloc::Global;
use test_tree::MemKeep;

/// A desk over a keeper in memory. It carries out each request on a copy, and the copy replaces the
/// keeper where there was no fault.
#[derive(Drop)]
pub struct MemDesk {
    keep: MemKeep,
    faults: u64,
}

impl MemDesk {
    /// A desk over this keeper, which has had no fault.
    pub fn new(keep: MemKeep) -> MemDesk
        ensures keeps { result.keep ≡ keep }
        ensures faults { result.faults ≡ 0 }
    {
        MemDesk { keep, faults: 0 }
    }

    /// The keeper that holds the content.
    pub fn keep(&self) -> &MemKeep
        ensures { result.now ≡ self.now.keep }
    {
        &self.keep
    }

    /// The keeper that holds the content, without the desk.
    pub fn into_keep(self) -> MemKeep
        ensures { result ≡ self.keep }
    {
        self.keep
    }

    // The reply, and the keeper as it is after the request.
    fn tried(
        &self,
        alloc: Global,
        caller: Option<&Name>,
        moment: i64,
        request: &Request,
    ) -> Result<(MemKeep, Reply), KeepFault>
        ensures tried { IfOk result (λ done. Tries
            (option_copied caller.entry) moment request.now self.now.keep done.1 done.0) }
        ensures closed { IfOk result (λ done. TriesClosed
            (option_copied caller.entry) moment request.now self.now.keep done.1 done.0) }
    {
        let mut keep = self.keep.copy()?;
        let reply = perform(alloc, &mut keep, caller, moment, request)?;
        Ok((keep, reply))
    }
}

impl Desk for MemDesk {
    ghost content = { λ desk room. content_in desk.keep ≡ room };

    ghost formed = { λ desk. IsFormed desk.keep };

    ghost stored = { λ desk rows. HasRows desk.keep rows };

    ghost sound = { λ desk. IsSoundKeep desk.keep };

    ghost trusted = { λ _. ⊤ };

    // Memory can always be asked again.
    ghost shut = { λ _. ⊥ };

    ghost faults = { λ desk. desk.faults };

    // A power cut leaves nothing of what is in memory, and nothing is promised of it.
    ghost Outlasts = { λ _ _ _ _. ⊤ };

    fn run(
        &mut self,
        alloc: Global,
        caller: Option<&Name>,
        moment: i64,
        request: &Request,
    ) -> Result<Reply, DeskFault> {
        match self.tried(alloc, caller, moment, request) {
            Ok((keep, reply)) => {
                self.keep = keep;
                Ok(reply)
            }
            Err(_) => {
                self.faults = one_more(self.faults);
                Err(DeskFault)
            }
        }
    }

    fn is_shut(&mut self) -> Result<bool, DeskFault> {
        Ok(false)
    }

    ghost keeps = { λ desk. (content_in desk.keep, refl) };

    ghost holds = { λ desk formed. (rows_in desk.keep, (formed, refl)) };

    ghost laws = { record {
      itself = λ _. tt;
      on = λ _ _ _ _ _ _ _ _ _. tt;
    } };
}

// One more than the count. At the greatest u64 the count stays there.
fn one_more(count: u64) -> u64
    ensures { result ≡ one_more count }
{
    count.saturating_add(1)
}
