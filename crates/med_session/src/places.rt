//! The places of the sessions: that of session n is n - 1, and holds its seat where it is open.
ghost use Rattle.std.specs.Prelude.{◌≡◌, ◌-◌, None, Some, is_some, option_map, replicate, slice_set, vec_len, IfOk};
ghost use Rattle.med_exec.specs.Prelude.{ServesRun, none_held, states};
ghost use Rattle.med_value.specs.Limits.{session_count};
ghost use Rattle.med_world.specs.Prelude.{seat_of, user_of, seated, seats_shown, held_by, AreHeld, AreOwn, all_cursors};

use crate::session::Sid;
use fdw_api::wishes::Wrapper2;
use med_exec::law::{other_runs_are_left, services_join};
use med_value::NoMemory;
use med_value::limits::SESSION_COUNT;
use med_world::{Seat, close_all};
use std::alloc::Global;

// The places of the sessions, all closed.
pub(crate) fn closed_sessions(alloc: Global) -> Result<Vec<Option<Seat>>, NoMemory>
    ensures { IfOk result (λ seats. seats_shown seats.items ≡ replicate session_count None) }
{
    let mut seats = Vec::new(alloc);
    while seats.len() < SESSION_COUNT {
        seats.push(None)?;
    }
    Ok(seats)
}

// Whether a session is open.
pub(crate) fn is_open(seats: &Vec<Option<Seat>>, sid: Sid) -> bool
    requires { vec_len seats.now ≡ session_count }
    ensures { result ≡ is_some (user_of (seats_shown seats.now.items) sid.number) }
{
    seats[usize::from(sid.number) - 1].is_some()
}

// The user of an open session.
pub(crate) fn user_in(seats: &Vec<Option<Seat>>, sid: Sid) -> Option<&str>
    requires { vec_len seats.now ≡ session_count }
    ensures { option_map (λ name. name.now) result ≡ user_of (seats_shown seats.now.items) sid.number }
{
    match &seats[usize::from(sid.number) - 1] {
        Some(seat) => Some(seat.user.as_str()),
        None => None,
    }
}

// Takes the seat of a session out, which leaves the session closed.
pub(crate) fn take_seat(seats: &mut Vec<Option<Seat>>, sid: Sid) -> Option<Seat>
    requires { vec_len seats.old ≡ session_count }
    ensures taken { option_map seated result ≡ seat_of (seats_shown seats.old.items) sid.number }
    ensures left { seats_shown seats.new.items ≡ slice_set (seats_shown seats.old.items) (sid.number - 1) None }
{
    seats[usize::from(sid.number) - 1].take()
}

// Puts a seat in, which leaves the session open.
pub(crate) fn put_seat(seats: &mut Vec<Option<Seat>>, sid: Sid, seat: Seat)
    requires { vec_len seats.old ≡ session_count }
    ensures { seats_shown seats.new.items ≡ slice_set (seats_shown seats.old.items) (sid.number - 1) (Some (seated seat)) }
{
    seats[usize::from(sid.number) - 1] = Some(seat);
}

// Closes every session, and its cursors with it.
pub(crate) fn close_seats<W: Wrapper2>(seats: &mut Vec<Option<Seat>>, slots: &mut Vec<Option<W>>)
    requires long { vec_len seats.old ≡ session_count }
    requires held { AreHeld (all_cursors (seats_shown seats.old.items)) (states W.meaning slots.old.items) }
    requires own { AreOwn (all_cursors (seats_shown seats.old.items)) }
    ensures closed { seats_shown seats.new.items ≡ replicate session_count None }
    ensures served { ServesRun (held_by (all_cursors (seats_shown seats.old.items))) none_held
        (states W.meaning slots.old.items) (states W.meaning slots.new.items) }
{
    services_join();
    other_runs_are_left();
    for place in 0..SESSION_COUNT {
        match seats[place].take() {
            Some(seat) => close_all(seat.cursors, slots),
            None => {}
        }
    }
}
