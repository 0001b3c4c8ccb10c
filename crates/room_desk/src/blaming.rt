//! Laws about what `Damaged` names.
ghost use Rattle.room_desk.specs.Blame.{SoundIsUndamaged, SoundStaysUndamaged};

/// On sound rows nothing is damaged, so `perform` and `reset` never answer `Damaged`.
pub fn sound_is_undamaged()
    ensures { SoundIsUndamaged }
{}

/// From sound rows `perform_all` answers no `Damaged`: they stay sound from one request to the
/// next.
pub fn sound_stays_undamaged()
    ensures { SoundStaysUndamaged }
{}
