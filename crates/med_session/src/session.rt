//! Sessions and what they ask.
ghost use Rattle.std.specs.Prelude.{◌≡◌, ◌-◌, ◌≤◌};
ghost use Rattle.med_value.specs.Limits.{session_count};

use med_value::limits::SESSION_COUNT;

/// The number of a session: 1 to 256.
#[derive(Clone, Copy, Debug, PartialEq, Eq)]
pub struct Sid {
    pub number: u16,
    ghost in_range: { (1 ≤ number) × (number ≤ session_count) },
}

/// What a line asks.
#[derive(Clone, Copy, Debug)]
pub enum Request<'a> {
    /// The session is opened for this user.
    Open(&'a str),
    /// The statement of this text is done.
    Sql(&'a str),
    /// The session is closed.
    Bye,
}

/// Room in the output was refused, and nothing was done.
#[derive(Clone, Copy, Debug, PartialEq, Eq)]
pub struct NoRoom;

impl Sid {
    ghost use Rattle.std.specs.Prelude.{◌↔◌, IsSome, IfSome};
    ghost use Rattle.sql_meaning.specs.Requests.{IsSid};

    /// The session of this number, where there is one.
    pub fn new(number: u16) -> Option<Sid>
        ensures exact { IsSome result ↔ IsSid number }
        ensures number { IfSome result (λ sid. sid.number ≡ number) }
    {
        if number < 1 || SESSION_COUNT < usize::from(number) {
            return None;
        }
        Some(Sid { number })
    }
}
