//! An engine over the demo list in a box, and what it replies.
ghost use Rattle.fed_setup.specs.Demo.{demo_list};
ghost use Rattle.list_wrapper.specs.ListBoxes.{box_of};
ghost use Rattle.list_wrapper.specs.Lists.{IsNewList};
ghost use Rattle.med_session.specs.Prelude.{IsSound, shown};
ghost use Rattle.fdw_api.specs.Lifting.{lifted};
ghost use Rattle.probe_wrapper.specs.Counting.{counted};
ghost use Rattle.probe_wrapper.specs.Failing.{failed};
ghost use Rattle.probe_wrapper.specs.Shuffled.{reordered, turns_of};
ghost use Rattle.probe_wrapper.specs.Shy.{shied, asked_of};
ghost use Rattle.probe_wrapper.specs.Vague.{vague};
ghost use Rattle.std.specs.Prelude.{IfOk};

use fdw_api::Lift;
use fdw_api::wishes::Wrapper2;
use fed_setup::demo::demo_tables;
use fed_setup::program::add_demo;
use fed_setup::told::RunFault;
use list_wrapper::ListWrapper;
use med_session::{Engine, Request, Sid};
use med_value::NoMemory;
use probe_wrapper::{Counting, Failing, Shuffled, Shy, Vague};
use std::alloc::Global;
use std::test::Fail;

/// The demo list.
pub fn new_list(alloc: Global) -> Result<ListWrapper, NoMemory>
    ensures { IfOk result (λ w. IsNewList (box_of w) demo_list) }
{
    ListWrapper::new(alloc, demo_tables(alloc)?)
}

/// A box round another, that fails once, after so many calls.
pub fn in_failing<W: Wrapper2>(inner: W, passes: u64) -> Failing<W>
    requires { IsNewList (W.meaning inner) demo_list }
    ensures { IsNewList (failed (W.meaning result.inner) result.failure) demo_list }
{
    Failing::new(inner, passes)
}

/// A box round another, that counts the rows that it pulls.
pub fn in_counting<W: Wrapper2>(inner: W) -> Counting<W>
    requires { IsNewList (W.meaning inner) demo_list }
    ensures { IsNewList (counted (W.meaning result.inner) result.pulled) demo_list }
{
    Counting::new(inner)
}

/// A box round another, that takes no restriction.
pub fn in_shy<W: Wrapper2>(alloc: Global, inner: W) -> Shy<W>
    requires { IsNewList (W.meaning inner) demo_list }
    ensures { IsNewList (shied (W.meaning result.inner) (asked_of result.scans)) demo_list }
{
    Shy::new(alloc, inner)
}

/// A box round another, that takes restrictions as hints alone.
pub fn in_vague<W: Wrapper2>(alloc: Global, inner: W) -> Vague<W>
    requires { IsNewList (W.meaning inner) demo_list }
    ensures { IsNewList (vague (W.meaning result.inner) (asked_of result.scans)) demo_list }
{
    Vague::new(alloc, inner)
}

/// A box round another, that promises no order.
pub fn in_lift<W: Wrapper2>(inner: W) -> Lift<W>
    requires { IsNewList (W.meaning inner) demo_list }
    ensures { IsNewList (lifted (W.meaning result.inner)) demo_list }
{
    Lift::new(inner)
}

/// A box round another, that gives its rows in another order.
pub fn in_shuffled<W: Wrapper2>(alloc: Global, inner: W) -> Shuffled<W>
    requires { IsNewList (W.meaning inner) demo_list }
    ensures { IsNewList (reordered (W.meaning result.inner) (turns_of result.scans) result.pulled) demo_list }
{
    Shuffled::new(alloc, inner)
}

// The lines of a reply in one line, each ended by a semicolon.
fn join_lines(out: &mut [u8]) {
    for byte in out {
        if *byte == b'\n' {
            *byte = b';';
        }
    }
}

/// What a row asks: OPEN by bob, OPEN by the owner, BYE or a statement.
pub fn request_of(text: &str) -> Request<'_> {
    if text == "OPEN" {
        Request::Open("bob")
    } else if text == "OPEN admin" {
        Request::Open("admin")
    } else if text == "BYE" {
        Request::Bye
    } else {
        Request::Sql(text)
    }
}

/// Asks in a session: the reply alone stands in `out` then, in one line.
pub fn ask<W: Wrapper2>(
    engine: &mut Engine<W>,
    session: u16,
    request: Request<'_>,
    out: &mut Vec<u8>,
) -> Result<(), Fail>
    requires { IsSound (shown W.meaning engine.old) }
    ensures { IsSound (shown W.meaning engine.new) }
{
    let Some(sid) = Sid::new(session) else {
        return Err("no session's number".into());
    };
    out.clear();
    engine.request(sid, request, out)?;
    join_lines(out);
    Ok(())
}

/// An engine over the demo list in this box.
pub fn engine_over<W: Wrapper2>(alloc: Global, list: W) -> Result<Engine<W>, RunFault<'static>>
    requires { IsNewList (W.meaning list) demo_list }
    ensures { IfOk result (λ engine. IsSound (shown W.meaning engine)) }
{
    let Ok(mut engine) = Engine::<W>::new(alloc, "admin") else {
        return Err(RunFault::NoMemory);
    };
    match add_demo(alloc, &mut engine, "admin", "demo", list) {
        Ok(()) => Ok(engine),
        Err(fault) => {
            drop(engine);
            Err(fault)
        }
    }
}
