//! What a program begins with.
ghost use Rattle.std.specs.Prelude.{◌≡◌, List, [], ◌∷◌, ◌++◌, IfOk, IfErr, OnOk, option_map, map};
ghost use Rattle.med_session.specs.Prelude.{IsUser, World, IsSound, Agrees, shown, AddCause};
ghost use Rattle.fdw_api.specs.State.{IsIdle};
ghost use Rattle.med_world.specs.Engine.{Label, TakesAs};
ghost use Rattle.list_wrapper.specs.Lists.{IsNewList};
ghost use Rattle.session_wire.specs.Worlds.{scene_of};
ghost use Rattle.fed_setup.specs.Demo.{demo_list};
ghost use Rattle.fed_words.specs.Places.{place_of, source_kind};
ghost use Rattle.fed_setup.specs.Setup.{Outside, HasDemo, HasList, IsFirst, HasNoFirst, AddsNoDemo, AddsPlace, AddsPlaces, AreNotAdded, IsNotAdded};
ghost use Rattle.fed_setup.specs.Setup.{BeginsBy, BeginsNot, IsReadOf, IsNewPlace, IsSetUp, SetUpFails, HasListAsked, labels_before, list_asked, list_label};
ghost use Rattle.fed_setup.specs.Told.{added_of};
ghost use Rattle.fed_words.specs.Words.{places_asked};
ghost use Rattle.med_session.specs.declared.adding.AddFault.{AddFault};
ghost use Rattle.fed_setup.specs.declared.told.RunFault.TheVariants as faults;

use crate::demo::{demo_tables, setup_script};
use crate::init::{read_init, replay_init};
use crate::replay;
use crate::sources::OpenFault;
use crate::surroundings::Surroundings;
use crate::told::{RunFault, add_fault, setup_told};
use fdw_api::wishes::Wrapper2;
use fed_words::places::{AskedPlace, PlaceKind};
use fed_words::words::AskedRun;
use list_wrapper::ListWrapper;
use med_catalog::law::lists_are_told_nothing;
use med_session::{Engine, SourceKind};
use source_kinds::law::{csv_takes_its_tables, jsonl_takes_its_tables, sqlite_takes_its_tables};
use std::alloc::Global;

/// Adds a list of the demo tables as the source of this name, and replays the script that makes its objects as this owner.
///
/// Where a line of the script is refused, the source and what the lines before it made stay.
pub fn add_demo<'a, W: Wrapper2>(
    alloc: Global,
    engine: &mut Engine<W>,
    owner: &str,
    name: &'a str,
    list: W,
) -> Result<(), RunFault<'a>>
    requires engine { IsSound (shown W.meaning engine.old) }
    requires demo { IsNewList (W.meaning list) demo_list }
    ensures sound { IsSound (shown W.meaning engine.new) }
    ensures worlds { OnOk result ((w : World) → Agrees (shown W.meaning engine.old) w
        → (after : World) × HasDemo (scene_of W.meaning engine.old w) owner.now name.entry.now (scene_of W.meaning engine.new after)
        × Agrees (shown W.meaning engine.new) after) }
    ensures fault { IfErr result (λ fault. (w : World) → Agrees (shown W.meaning engine.old) w
        → AddsNoDemo (scene_of W.meaning engine.old w) owner.now (shown W.meaning engine.old).labels name.entry fault) }
{
    lists_are_told_nothing();
    let script = setup_script(alloc, name)?;
    match engine.add_source(name, SourceKind::List, list) {
        Ok(()) => {}
        Err((_, fault)) => return Err(add_fault(name, fault)),
    }
    setup_told(name, replay(engine, owner, script.as_bytes()))
}

// Adds a list of the demo tables as the source of this name.
fn add_list<'a, W: Wrapper2>(
    engine: &mut Engine<W>,
    name: &'a str,
    demo: W,
) -> Result<(), RunFault<'a>>
    requires engine { IsSound (shown W.meaning engine.old) }
    requires demo { IsNewList (W.meaning demo) demo_list }
    ensures sound { IsSound (shown W.meaning engine.new) }
    ensures labels { OnOk result ((shown W.meaning engine.new).labels
        ≡ (shown W.meaning engine.old).labels ++ list_label name.entry.now ∷ []) }
    ensures world { OnOk result ((w : World) → Agrees (shown W.meaning engine.old) w
        → (after : World) × HasList (scene_of W.meaning engine.old w) name.entry.now (scene_of W.meaning engine.new after)
        × Agrees (shown W.meaning engine.new) after) }
    ensures fault { IfErr result (λ fault. (why : AddFault) × (fault ≡ added_of name.entry why)
        × AddCause (shown W.meaning engine.old).labels name.entry.now why) }
{
    lists_are_told_nothing();
    match engine.add_source(name, SourceKind::List, demo) {
        Ok(()) => {}
        Err((_, fault)) => return Err(add_fault(name, fault)),
    }
    Ok(())
}

// Adds the demo list as the source of this name, if one is asked, to an engine that has no source.
fn add_asked_list<'a, V: AllocGlobal + Surroundings>(
    rt: &V,
    engine: &mut Engine<V::Source>,
    list: Option<&'a str>,
) -> Result<(), RunFault<'a>>
    requires engine { IsSound (shown V.Source.meaning engine.old) }
    requires empty { (shown V.Source.meaning engine.old).labels ≡ [] }
    ensures sound { IsSound (shown V.Source.meaning engine.new) }
    ensures labels { OnOk result ((shown V.Source.meaning engine.new).labels
        ≡ labels_before (option_map (λ s. s.now) list.entry)) }
    ensures world { OnOk result ((w : World) → Agrees (shown V.Source.meaning engine.old) w
        → (after : World) × HasListAsked (scene_of V.Source.meaning engine.old w) (option_map (λ s. s.now) list.entry)
        (scene_of V.Source.meaning engine.new after) × Agrees (shown V.Source.meaning engine.new) after) }
    ensures fault { IfErr result (λ fault. fault ≡ faults.NoMemory) }
{
    let Some(name) = list else {
        return Ok(());
    };
    let alloc = rt.alloc();
    let demo = ListWrapper::new(alloc, demo_tables(alloc)?)?;
    match add_list(engine, name, rt.list_source(demo)) {
        Ok(()) => {}
        Err(fault) => return Err(fault),
    }
    Ok(())
}

// Adds what stands at a place as the source that is asked.
fn add_place<'a, W: Wrapper2>(
    engine: &mut Engine<W>,
    place: AskedPlace<'a>,
    source: W,
) -> Result<(), RunFault<'a>>
    requires engine { IsSound (shown W.meaning engine.old) }
    requires idle { IsIdle (W.meaning source) }
    requires takes { TakesAs (source_kind place.kind) (W.meaning source) }
    ensures sound { IsSound (shown W.meaning engine.new) }
    ensures added { OnOk result ((outside : Outside) → IsNewPlace outside (place_of place.entry) (W.meaning source)
        → AddsPlace outside (shown W.meaning engine.old) (place_of place.entry) (shown W.meaning engine.new)) }
    ensures fault { IfErr result (IsNotAdded (shown W.meaning engine.old).labels (place_of place.entry)) }
{
    match engine.add_source(place.name, place.kind.source_kind(), source) {
        Ok(()) => {}
        Err((_, fault)) => return Err(add_fault(place.name, fault)),
    }
    Ok(())
}

// The source that stands at a place.
fn source_of<'a, V: Surroundings>(rt: &V, place: AskedPlace<'a>) -> Result<V::Source, RunFault<'a>>
    ensures new { IfOk result (λ s. IsNewPlace (V.outside rt.now) (place_of place.entry) (V.Source.meaning s)) }
    ensures idle { IfOk result (λ s. IsIdle (V.Source.meaning s)) }
    ensures fault { (labels : List Label) → IfErr result (IsNotAdded labels (place_of place.entry)) }
{
    match place.kind {
        PlaceKind::Csv => Ok(rt.csv_source(place.path)?),
        PlaceKind::JsonLines => Ok(rt.jsonl_source(place.path)?),
        PlaceKind::Sqlite => match rt.sqlite_source(place.path) {
            Ok(source) => Ok(source),
            Err(OpenFault::NoMemory) => Err(RunFault::NoMemory),
            Err(OpenFault::CannotOpen) => Err(RunFault::CannotOpen(place.name)),
        },
    }
}

// Adds what stands at this place as a source.
fn add_one<'a, V: Surroundings>(
    rt: &V,
    engine: &mut Engine<V::Source>,
    place: AskedPlace<'a>,
) -> Result<(), RunFault<'a>>
    requires { IsSound (shown V.Source.meaning engine.old) }
    ensures sound { IsSound (shown V.Source.meaning engine.new) }
    ensures added { OnOk result (AddsPlace (V.outside rt.now)
        (shown V.Source.meaning engine.old) (place_of place.entry) (shown V.Source.meaning engine.new)) }
    ensures fault { IfErr result (IsNotAdded (shown V.Source.meaning engine.old).labels (place_of place.entry)) }
{
    csv_takes_its_tables();
    jsonl_takes_its_tables();
    sqlite_takes_its_tables();
    match source_of(rt, place) {
        Ok(source) => add_place(engine, place, source),
        Err(fault) => Err(fault),
    }
}

// Adds what stands at these places as sources, in order.
fn add_places<'a, V: Surroundings>(
    rt: &V,
    engine: &mut Engine<V::Source>,
    places: &[AskedPlace<'a>],
) -> Result<(), RunFault<'a>>
    requires { IsSound (shown V.Source.meaning engine.old) }
    ensures sound { IsSound (shown V.Source.meaning engine.new) }
    ensures added { OnOk result (AddsPlaces (V.outside rt.now)
        (shown V.Source.meaning engine.old) (map place_of places.now) (shown V.Source.meaning engine.new)) }
    ensures fault { IfErr result (AreNotAdded (shown V.Source.meaning engine.old).labels (map place_of places.now)) }
{
    let Some((place, rest)) = places.split_first() else {
        return Ok(());
    };
    match add_one(rt, engine, *place) {
        Ok(()) => {}
        Err(fault) => return Err(fault),
    }
    add_places(rt, engine, rest)
}

// Replays the script that sets up the list of this name, if one is asked, as this owner.
fn set_up<'a, W: Wrapper2>(
    alloc: Global,
    engine: &mut Engine<W>,
    owner: &str,
    asked: Option<&'a str>,
) -> Result<(), RunFault<'a>>
    requires { IsSound (shown W.meaning engine.old) }
    ensures sound { IsSound (shown W.meaning engine.new) }
    ensures done { OnOk result ((w : World) → Agrees (shown W.meaning engine.old) w
        → (after : World) × IsSetUp (scene_of W.meaning engine.old w) owner.now (option_map (λ s. s.now) asked.entry)
        (scene_of W.meaning engine.new after) × Agrees (shown W.meaning engine.new) after) }
    ensures fault { IfErr result (λ fault. (w : World) → Agrees (shown W.meaning engine.old) w
        → SetUpFails (scene_of W.meaning engine.old w) owner.now asked.entry fault) }
{
    let Some(name) = asked else {
        return Ok(());
    };
    let lines = setup_script(alloc, name)?;
    setup_told(name, replay(engine, owner, lines.as_bytes()))
}

// The engine that the program begins with, which has the sources that are asked, and in which the list is set up.
fn first_engine<'a, V: AllocGlobal + Surroundings>(
    rt: &V,
    asked: &AskedRun<'a>,
) -> Result<Engine<V::Source>, RunFault<'a>>
    requires { IsUser asked.now.owner.now }
    ensures sound { IfOk result (λ engine. IsSound (shown V.Source.meaning engine)) }
    ensures first { IfOk result (λ engine. (w : World) × Agrees (shown V.Source.meaning engine) w
        × IsFirst (V.outside rt.now) asked.now.owner.now (list_asked asked.now)
        (places_asked asked.now) (scene_of V.Source.meaning engine w)) }
    ensures refused { IfErr result (HasNoFirst (V.outside rt.now) asked.now) }
{
    let Ok(mut engine) = Engine::<V::Source>::new(rt.alloc(), asked.owner) else {
        return Err(RunFault::NoMemory);
    };
    match add_asked_list(rt, &mut engine, asked.list) {
        Ok(()) => {}
        Err(fault) => {
            drop(engine);
            return Err(fault);
        }
    }
    match add_places(rt, &mut engine, &asked.places) {
        Ok(()) => {}
        Err(fault) => {
            drop(engine);
            return Err(fault);
        }
    }
    match set_up(rt.alloc(), &mut engine, asked.owner, asked.list) {
        Ok(()) => Ok(engine),
        Err(fault) => {
            drop(engine);
            Err(fault)
        }
    }
}

/// What a program begins with.
#[derive(Drop)]
pub struct Begun<W> {
    /// The engine, which has the sources that are asked.
    pub engine: Engine<W>,
    /// The bytes of the init file, if one is asked.
    pub script: Option<Vec<u8>>,
}

/// Why a program did not begin.
#[derive(Drop)]
pub struct NotBegun<'a> {
    /// The fault that ended it.
    pub fault: RunFault<'a>,
    /// The bytes of the init file, if they were read.
    pub script: Option<Vec<u8>>,
}

/// Makes the engine that a program begins with: it has the demo list and the folders and databases that are asked, the list is set up, and
/// then its owner replays the init file, if one is asked.
///
/// Refused where memory was, a source was not added, a line of the list's set-up was refused, the init file could not be read, or its
/// replay was refused.
pub fn begin<'a, V: AllocGlobal + Surroundings>(
    rt: &V,
    asked: &AskedRun<'a>,
) -> Result<Begun<V::Source>, NotBegun<'a>>
    requires { IsUser asked.now.owner.now }
    ensures sound { IfOk result (λ begun. IsSound (shown V.Source.meaning begun.engine)) }
    ensures read { IfOk result (λ begun. IsReadOf (V.outside rt.now) asked.now.init (option_map (λ v. v.items) begun.script)) }
    ensures begins { IfOk result (λ begun. BeginsBy (V.outside rt.now) asked.now
        (option_map (λ v. v.items) begun.script) (shown V.Source.meaning begun.engine)) }
    ensures refused { IfErr result (λ refused. BeginsNot (V.outside rt.now) asked.now
        (option_map (λ v. v.items) refused.script) refused.fault) }
{
    let mut engine = match first_engine(rt, asked) {
        Ok(engine) => engine,
        Err(fault) => {
            return Err(NotBegun {
                fault,
                script: None,
            });
        }
    };
    let script = match read_init(rt, asked.init) {
        Ok(script) => script,
        Err(fault) => {
            drop(engine);
            return Err(NotBegun {
                fault,
                script: None,
            });
        }
    };
    match replay_init(&mut engine, asked.owner, &script) {
        Ok(()) => Ok(Begun { engine, script }),
        Err(fault) => Err(NotBegun { fault, script }),
    }
}
