//! Cursors by their names.
ghost use Rattle.std.specs.Prelude.{◌≡◌, map, option_map, slice_get};
ghost use Rattle.std.specs.List.{position as place_of};
ghost use Rattle.std.specs.Option.{option_and_then};
ghost use Rattle.med_world.specs.Open.{opened, has_name, opened_named, without_named, AreNamedApart};

use crate::cursors::OpenCursor;

/// The place of the first cursor of this name, or `None` where no cursor has it (SQL:2016, 5.4 <cursor name>).
pub fn position(cursors: &[OpenCursor], name: &str) -> Option<usize>
    ensures place { result ≡ place_of (has_name name.now) (map opened cursors.now) }
    ensures there { option_and_then (slice_get (map opened cursors.now)) result ≡ opened_named name.now (map opened cursors.now) }
{
    cursors
        .iter()
        .position(|cursor| cursor.name.as_str() == name)
}

/// Takes the cursor of this name out, if there is one. The others stay, in their order.
pub fn take(cursors: &mut Vec<OpenCursor>, name: &str) -> Option<OpenCursor>
    requires { AreNamedApart (map opened cursors.old.items) }
    ensures taken { option_map opened result ≡ opened_named name.now (map opened cursors.old.items) }
    ensures left { map opened cursors.new.items ≡ without_named name.now (map opened cursors.old.items) }
    ensures apart { AreNamedApart (map opened cursors.new.items) }
{
    match position(cursors.as_slice(), name) {
        Some(place) => Some(cursors.remove(place)),
        None => None,
    }
}
