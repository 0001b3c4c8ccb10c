//! Laws of rooms that are made and upgraded.
ghost use Rattle.store_schema.specs.NewRoom.{NewRoomIsSound};
ghost use Rattle.store_schema.specs.Counting.{CounterFollows, RecordsTakeOneEach};
ghost use Rattle.store_schema.specs.Migrating.{SpreadIsMigrated};
ghost use Rattle.std.specs.Prelude.{List};
ghost use Rattle.sqlite.specs.Order.{Row};
ghost use Rattle.store_tables.specs.Printed.{ArePrinted, KeepsPrinted};

use room_inherit::laws::{migrated_is_sound, migrated_means_the_same};
use room_verify::laws::kept_is_no_fault;

/// The rows of a new room are sound.
pub fn new_room_is_sound()
    ensures { NewRoomIsSound }
{}

/// Where each list column holds printed entries, it does after any call that keeps to that.
pub fn printed_stays_printed()
    ensures { (old new : List Row) → KeepsPrinted old new → ArePrinted old → ArePrinted new }
{}

/// The counter of records is at the number of the last that was added, and as it was if none was.
pub fn counter_follows_records()
    ensures { CounterFollows }
{}

/// Each record takes one number, if the counter of records isn't below the number of the last.
pub fn records_take_one_number_each()
    ensures { RecordsTakeOneEach }
{}

/// Sound rows of schema 1, of which all lists are carried down, are sound rows of schema 2 and mean
/// the same.
pub fn spread_is_migrated()
    ensures { SpreadIsMigrated }
{
    kept_is_no_fault();
    migrated_is_sound();
    migrated_means_the_same();
}
