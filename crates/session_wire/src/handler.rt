//! What answers requests.
ghost use Rattle.std.specs.Prelude.{◌≡◌, ◌<◌, ◌+◌, ◌++◌, ℕ, List, OnOk, OnErr, vec_len, vec_capacity};
ghost use Rattle.med_session.specs.Prelude.{asked, AskedLine};

use med_session::{NoRoom, Request, Sid};

/// What answers the requests of up to 256 sessions.
pub trait Handler: Drop {
    /// From the first state, a request in the session of this number may be answered by this text, which
    /// leaves the last state.
    ghost step: { Self → ℕ → AskedLine → List ℕ → Self → Type 0 };

    /// The second state is the first one with every session ended.
    ghost ended: { Self → Self → Type 0 };

    /// The states that calls keep to.
    ghost sound: { Self → Type 0 };

    /// Answers one request: the reply is put behind what `out` has.
    ///
    /// Refused where room is refused before the request is begun. Then nothing was done, and the output had not the room
    /// for 128 bytes more: a caller that leaves that room never meets it.
    fn request(&mut self, sid: Sid, request: Request<'_>, out: &mut Vec<u8>) -> Result<(), NoRoom>
        requires { sound self.old }
        ensures ok { OnOk result ((reply : List ℕ) × (out.new.items ≡ out.old.items ++ reply)
            × step self.old sid.number (asked request.entry) reply self.new) }
        ensures refused { OnErr result ((self.new ≡ self.old) × (out.new.items ≡ out.old.items)) }
        ensures full { OnErr result (vec_capacity out.old < vec_len out.old + 128) }
        ensures sound { sound self.new };

    /// Ends every session.
    fn close_sessions(&mut self)
        requires { sound self.old }
        ensures ended { ended self.old self.new }
        ensures sound { sound self.new };
}
