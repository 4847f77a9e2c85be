//! Laws of the world: each is the contract of a function that does nothing.
ghost use Rattle.svc_core.specs.Laws.{EventsKeep, PowerKeeps, RowsKeep, WorldsAreLegal};

/// Each step of the table keeps what holds of the world, and so does every list of events.
pub fn rows_keep()
    ensures rows { RowsKeep }
    ensures events { EventsKeep }
{}

/// A loss of power at any moment leaves the non-volatile variables of the history so far, or with the one planned change.
pub fn power_keeps()
    ensures { PowerKeeps }
{}

/// The session of a world is legal at every moment.
pub fn worlds_are_legal()
    ensures { WorldsAreLegal }
{}
