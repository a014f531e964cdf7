//! Sources that are added, and handed back.
ghost use Rattle.fdw_api.specs.State.{IsIdle};
ghost use Rattle.med_exec.specs.Slots.{states};
ghost use Rattle.med_session.specs.Shows.{label};
ghost use Rattle.med_world.specs.Prelude.{HasSource, IsNamedAt};
ghost use Rattle.std.specs.Prelude.{◌≡◌, map, IfSome, IfNone, IfErr, OnOk, OnErr};

use crate::engine::Engine;
use crate::sources::NamedSource;
use fdw_api::interface::Counts;
use fdw_api::wishes::Wrapper2;
use med_catalog::SourceKind;
use med_exec::slots::ledger_at;
use med_value::limits::SOURCE_LIMIT;
use med_world::law::{sessions_end, sources_are_added};
use thiserror::Error;

/// Why a source was not added.
#[derive(Clone, Copy, Debug, PartialEq, Eq, Error)]
pub enum AddFault {
    /// Memory was refused.
    #[error("out of memory")]
    NoMemory,
    /// A source of this name was added before.
    #[error("name taken")]
    Taken,
    /// There are 64 sources.
    #[error("too many sources")]
    TooMany,
}

/// The sources that an engine had, in the order in which they were added; `None` where one was dropped.
#[derive(Drop)]
pub struct Sources<W> {
    pub slots: Vec<Option<W>>,
}

// The place of the source of this name.
pub(crate) fn place_of_source(sources: &[NamedSource], name: &str) -> Option<usize>
    ensures found { IfSome result (λ place. IsNamedAt (map label sources.now) place name.now) }
    ensures none { IfNone result (HasSource (map label sources.now) name.now → ⊥) }
{
    sources
        .iter()
        .position(|source| source.name.as_str() == name)
}

impl<W: Wrapper2> Engine<W> {
    ghost use Rattle.med_session.specs.Adding.{AddCause, AreCounts};
    ghost use Rattle.med_session.specs.Shows.{shown};
    ghost use Rattle.med_world.specs.Prelude.{Adds, Shown, IsSound, Agrees, TakesAs, EachBox, IsAtRest, ClosesAll, state_of};
    ghost use Rattle.sql_meaning.specs.World.{World, with_source};

    /// Adds a source under a name, any text, that HANDLER names by this kind. Its wrapper is to be idle: nothing bound, live or staged;
    /// and it takes each table that the catalogue lets pass for this kind. In a world it is shared where its wrapper is not honest.
    ///
    /// # Errors
    ///
    /// `Taken` where a source of this name was added before, else `TooMany` where there are 64, dropped sources counted in both;
    /// `NoMemory` where memory was refused. The wrapper is handed back, and the engine is as it was.
    ///
    /// PostgreSQL: `CREATE SERVER` names such a source.
    pub fn add_source(
        &mut self,
        name: &str,
        kind: SourceKind,
        wrapper: W,
    ) -> Result<(), (W, AddFault)>
        requires engine { IsSound (shown W.meaning self.old) }
        requires idle { IsIdle (W.meaning wrapper) }
        requires takes { TakesAs kind (W.meaning wrapper) }
        ensures sound { IsSound (shown W.meaning self.new) }
        ensures added { OnOk result (Adds (shown W.meaning self.old) name.now kind (W.meaning wrapper) (shown W.meaning self.new)) }
        ensures world { OnOk result ((w : World) → Agrees (shown W.meaning self.old) w
            → Agrees (shown W.meaning self.new) (with_source w name.now kind (state_of (Some (W.meaning wrapper))))) }
        ensures fault { IfErr result (λ back. AddCause (shown W.meaning self.old).labels name.now back.1) }
        ensures handed_back { IfErr result (λ back. W.meaning back.0 ≡ W.meaning wrapper) }
        ensures unchanged { OnErr result (shown W.meaning self.new ≡ shown W.meaning self.old) }
    {
        sources_are_added();
        if place_of_source(&self.sources, name).is_some() {
            return Err((wrapper, AddFault::Taken));
        }
        if self.sources.len() >= SOURCE_LIMIT {
            return Err((wrapper, AddFault::TooMany));
        }
        let Ok(name) = String::from_str(*self.sources.allocator(), name) else {
            return Err((wrapper, AddFault::NoMemory));
        };
        if self.slots.reserve(1).is_err()
            || self.sources.push(NamedSource { name, kind }).is_err()
        {
            return Err((wrapper, AddFault::NoMemory));
        }
        if self.slots.push(Some(wrapper)).is_err() {
            unreachable!()
        }
        Ok(())
    }

    /// What the wrapper of this source counts; `None` where there is no such source, or it was dropped.
    pub fn counts(&self, source: &str) -> Option<Counts>
        ensures { AreCounts (shown W.meaning self.now) source.now result }
    {
        match place_of_source(&self.sources, source) {
            Some(place) => ledger_at(&self.slots, place),
            None => None,
        }
    }

    /// Closes every session, and every cursor with it, and hands the sources back. No scan of them is live, and nothing is staged.
    pub fn finish(mut self) -> Sources<W>
        requires { IsSound (shown W.meaning self) }
        ensures closed { (last : Shown) × ClosesAll (shown W.meaning self) last × (states W.meaning result.slots.items ≡ last.boxes) }
        ensures at_rest { EachBox IsAtRest (states W.meaning result.slots.items) }
    {
        sessions_end();
        self.close_sessions();
        let Engine { slots, .. } = self;
        Sources { slots }
    }
}
