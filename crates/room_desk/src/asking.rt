//! The request that asks what a caller may do.
ghost use Rattle.std.specs.Prelude.{◌≡◌, ◌≤◌, ◌+◌, ℕ, length, [], ◌∷◌, IfOk};
ghost use Rattle.room_eval.specs.Verdict.{ruling_of};
ghost use Rattle.room_rows.specs.Held.{full_of};
ghost use Rattle.room_desk.specs.Asked.{rulings_at};
ghost use Rattle.room_rows.specs.Keep.{IsDamaged};
ghost use Rattle.room_judge.specs.Halted.{Serves, Tries};
ghost use Rattle.room_machine.specs.declared.reply.Reply.TheVariants.{Rulings as RulingsReply};
ghost use Rattle.room_machine.specs.declared.request.Request.TheVariants.{Can};

use room_ace::Mask;
use room_eval::{Ruling, ruling};
use room_judge::{Ask, Asker, Halt, walk_to};
use room_machine::{Reply, Rulings};
use room_rows::{Keep, Node};
use std::alloc::AllocError;

/// The ruling on each asked bit for the caller.
pub(crate) fn can<K: Keep>(keep: &mut K, ask: &Ask<'_>, mask: Mask) -> Result<Reply, Halt>
    ensures done { Tries K.Keep keep.old keep.new result IsDamaged
        (Serves ask.now.asker.now (Can ask.now.path.now mask)) }
    ensures counted { K.reads keep.new ≤ K.reads keep.old + (length ask.now.path.now + 1) }
{
    let node = walk_to(keep, ask)?;
    Ok(rulings_reply(ask, &node, mask)?)
}

// The ruling of the object's dacl on each of these bits.
fn rulings_reply(ask: &Ask<'_>, node: &Node, mask: Mask) -> Result<Reply, AllocError>
    ensures { IfOk result
        (λ reply. reply ≡ RulingsReply (rulings_at ask.now.asker.now node.now mask)) }
{
    Ok(Reply::Rulings(rulings_of(ask, node, mask)?))
}

// Each of these bits with its ruling.
fn rulings_of(ask: &Ask<'_>, node: &Node, mask: Mask) -> Result<Rulings, AllocError>
    ensures { IfOk result (λ rulings. rulings ≡ rulings_at ask.now.asker.now node.now mask) }
{
    let bits = mask.singles(ask.alloc)?;
    let mut items = Vec::new(ask.alloc);
    'bits: for bit in bits.as_slice() {
        items.push((*bit, ruling_on(ask.asker, node, *bit)))?;
    }
    Ok(Rulings::from_vec(items))
}

// The ruling on one bit.
fn ruling_on(asker: &Asker, node: &Node, bit: Mask) -> Ruling
    requires { (only : ℕ) × (bit ≡ only ∷ []) }
    ensures { (only : ℕ) → bit ≡ only ∷ [] → result
        ≡ ruling_of (full_of node.now.dacl) asker.now.caller node.now.owners only }
{
    ruling(node.dacl.full(), &asker.caller, &node.owners, bit)
}
