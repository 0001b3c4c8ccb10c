//! Whether the rows of a keeper are sound.
ghost use Rattle.std.specs.Prelude.{◌≡◌, IfOk};
ghost use Rattle.std.specs.Option.{option_copied};
ghost use Rattle.room_rows.specs.Calls.{Reads};
ghost use Rattle.room_rows.specs.Keep.{IsNever};
ghost use Rattle.room_verify.specs.Kept.{IsKeptReport, IsReportBy, IsReportOf, is_lawful};
ghost use Rattle.room_verify.specs.Objects.{only};
ghost use Rattle.room_verify.specs.Reading.{IsReport, Looks};
ghost use Rattle.room_rows.specs.Sound.{first_failing};

use crate::all_nodes::read_all;
use crate::bodies::first_bad_body;
use crate::objects::Objects;
use crate::report::fault_of_number;
use room_rows::{Keep, KeepFault, Node, Report, Unsound};
use std::alloc::{AllocError, Global};

/// Which inherited entries the rows are to hold.
#[derive(Clone, Copy)]
enum Holding {
    /// Those of every object.
    Finished,
    /// Those of objects that aren't linked, and no others.
    Kept,
}

/// Whether the rows are sound, or the first fault of seven tests, each over all numbers in rising
/// order: lists, root, parents, loops, names, bytes, and the law that ties stored inherited entries
/// to the parent's list. The fault's path is `?` and a number in the first four, and the true path
/// in the others. Nothing is written. The error is the keeper's; it is `Damaged` or `NoRoot` only
/// where the keeper contradicts itself.
pub fn verify<K: Keep>(alloc: Global, keep: &mut K) -> Result<Report, KeepFault>
    ensures look { Looks K.Keep keep.old keep.new result IsReport }
{
    look_through(alloc, keep, Holding::Finished)
}

/// As `verify`, for rows that hold the kept entries alone: the last test looks for an object with a
/// linked list that stores inherited entries. Nothing is written. Errors are those of `verify`.
pub fn verify_kept<K: Keep>(alloc: Global, keep: &mut K) -> Result<Report, KeepFault>
    ensures look { Looks K.Keep keep.old keep.new result IsKeptReport }
{
    look_through(alloc, keep, Holding::Kept)
}

#[tactic(auto, using(crate::proofs::Whole::no_bad_zero))]
fn look_through<K: Keep>(alloc: Global, keep: &mut K, holding: Holding) -> Result<Report, KeepFault>
    ensures look { Looks K.Keep keep.old keep.new result (IsReportBy holding) }
{
    match read_all(alloc, keep) {
        Err(KeepFault::Damaged { id }) => Ok(fault_of_number(alloc, id, Unsound::BadList)?),
        Err(fault) => Err(fault),
        Ok(nodes) => match Objects::new(nodes) {
            Err(id) => Err(KeepFault::Damaged { id }),
            Ok(objects) => report_on(alloc, keep, &objects, holding),
        },
    }
}

// The report on rows that have these objects, where all can be read and no list is bad.
fn report_on<K: Keep>(
    alloc: Global,
    keep: &mut K,
    objects: &Objects,
    holding: Holding,
) -> Result<Report, KeepFault>
    ensures read { Reads K.Keep keep.old keep.new result IsNever
        (IsReportOf holding objects.now) }
{
    match objects.tree_fault(alloc)? {
        Some(report) => return Ok(report),
        None => {}
    }
    match first_bad_body(keep, objects)? {
        Some(node) => return Ok(objects.fault_of(alloc, node, Unsound::BadBody)?),
        None => {}
    }
    match objects.first_unlawful(alloc, holding)? {
        Some(node) => Ok(objects.fault_of(alloc, node, Unsound::BrokenLaw)?),
        None => Ok(Report::Sound),
    }
}

impl Objects {
    // The first object that fails the last test.
    fn first_unlawful(&self, alloc: Global, holding: Holding) -> Result<Option<&Node>, AllocError>
        ensures { IfOk result (λ found. option_copied found
            ≡ first_failing (is_lawful holding (only self.now)) (only self.now)) }
    {
        match holding {
            Holding::Finished => self.first_broken_law(alloc),
            Holding::Kept => Ok(self.first_not_kept()),
        }
    }
}
