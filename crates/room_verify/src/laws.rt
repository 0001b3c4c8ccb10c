//! The law of what is found in rows that hold the kept entries alone.
ghost use Rattle.room_verify.specs.Laws.{KeptIsNoFault};

/// Rows that hold the kept entries alone are sound exactly if `verify_kept` finds nothing.
pub fn kept_is_no_fault()
    ensures { KeptIsNoFault }
{}
