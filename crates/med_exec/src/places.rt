//! Whether a row of all entries can be held.
ghost use Rattle.std.specs.Prelude.{◌↔◌, IsTrue};
ghost use Rattle.med_planner.specs.Premises.{HasPlaces};

use med_binder::BoundEntry;

/// Whether the joined row of all entries has a place for each of their columns.
pub(crate) fn has_places(entries: &[BoundEntry]) -> bool
    ensures { IsTrue result ↔ HasPlaces entries.now }
{
    let mut total: usize = 0;
    for entry in entries {
        total = total.saturating_add(entry.width);
    }
    total < usize::MAX
}
