//! Leases: the tables that open cursors read.
ghost use Rattle.std.specs.Prelude.{◌≡◌, map, bytes_eq, string_bytes, option_map};
ghost use Rattle.std.specs.List.{list_any};
ghost use Rattle.med_world.specs.Open.{opened, seated, seats_shown, leases_table, seat_leases, any_leases};

use crate::cursors::{OpenCursor, Seat};

// Whether the name is among these.
fn is_among(tables: &[String], table: &str) -> bool
    ensures { result ≡ list_any (bytes_eq table.now) (map string_bytes tables.now) }
{
    for leased in tables {
        if table == leased.as_str() {
            return true;
        }
    }
    false
}

// Whether one of the cursors reads the table of this name.
fn some_leases(cursors: &[OpenCursor], table: &str) -> bool
    ensures { result ≡ list_any (leases_table table.now) (map opened cursors.now) }
{
    for cursor in cursors {
        if is_among(cursor.leases.as_slice(), table) {
            return true;
        }
    }
    false
}

// Whether a cursor of the session in this seat, if there is one, reads the table of this name.
fn seat_leases(seat: &Option<Seat>, table: &str) -> bool
    ensures { result ≡ seat_leases table.now (option_map seated seat.now) }
{
    match seat {
        None => false,
        Some(seat) => some_leases(seat.cursors.as_slice(), table),
    }
}

/// Whether an open cursor of any session reads the table of this name.
pub fn is_leased(seats: &[Option<Seat>], table: &str) -> bool
    ensures { result ≡ any_leases (seats_shown seats.now) table.now }
{
    for seat in seats {
        if seat_leases(seat, table) {
            return true;
        }
    }
    false
}
