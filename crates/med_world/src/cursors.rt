//! Open cursors and the sessions that have them.
ghost use Rattle.std.specs.Prelude.{◌≡◌, map};
ghost use Rattle.med_world.specs.Fetching.{counted};
ghost use Rattle.med_world.specs.Open.{opened, is_full as holds_most};

use med_exec::Run;
use med_value::limits::CURSOR_LIMIT;

/// An open cursor (SQL:2016, 14.1 <declare cursor>).
#[derive(Drop)]
pub struct OpenCursor {
    pub name: String,
    /// The names of the columns of its rows.
    pub names: Vec<String>,
    /// The tables that it reads, one for each entry of FROM of each core: no statement writes to them or drops them while it is open.
    pub leases: Vec<String>,
    /// The rows that it has still to give.
    pub run: Run,
}

/// A count of the times that cursors were asked for a row, to 2^64 - 1. Nothing but [`crate::fetch`] counts it up, each time that it asks.
#[derive(Debug, Drop)]
pub struct Asked {
    times: u64,
}

impl Asked {
    /// They were never asked.
    pub fn never() -> Asked
        ensures { result.times ≡ 0 }
    {
        Asked { times: 0 }
    }

    // Once more.
    pub(crate) fn count(&mut self)
        ensures { self.new.times ≡ counted self.old.times 1 }
    {
        self.times = self.times.saturating_add(1);
    }
}

/// An open session: its user, its cursors in the order in which they were declared, and how often these were asked for a row.
#[derive(Drop)]
pub struct Seat {
    pub user: String,
    pub cursors: Vec<OpenCursor>,
    /// How often its cursors were asked for a row.
    pub asked: Asked,
}

/// Whether a session with these cursors may open no further one.
pub fn is_full(cursors: &[OpenCursor]) -> bool
    ensures { result ≡ holds_most (map opened cursors.now) }
{
    cursors.len() >= CURSOR_LIMIT
}
