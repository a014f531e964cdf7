//! The engine as what answers requests.

use crate::handler::Handler;
use fdw_api::wishes::Wrapper2;
use med_session::{Engine, NoRoom, Request, Sid};

impl<W: Wrapper2> Handler for Engine<W> {
    ghost use Rattle.session_wire.specs.Engines.{EngineSteps, EngineEnds, EngineIsSound};

    ghost step = { λ old sid request text new. EngineSteps W.meaning old sid request text new };

    ghost ended = { λ old new. EngineEnds W.meaning old new };

    ghost sound = { λ engine. EngineIsSound W.meaning engine };

    fn request(&mut self, sid: Sid, request: Request<'_>, out: &mut Vec<u8>) -> Result<(), NoRoom> {
        self.request(sid, request, out)
    }

    fn close_sessions(&mut self) {
        self.close_sessions()
    }
}
