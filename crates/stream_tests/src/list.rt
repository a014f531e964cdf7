//! An engine over the demo list.
ghost use Rattle.list_wrapper.specs.ListBoxes.{box_of};
ghost use Rattle.med_session.specs.Prelude.{IsSound, shown};
ghost use Rattle.std.specs.Prelude.{IfOk};

use fed_setup::demo::demo_tables;
use fed_setup::program::add_demo;
use fed_setup::told::RunFault;
use list_wrapper::ListWrapper;
use med_session::Engine;
use std::alloc::Global;

/// An engine with the demo list as the source `demo`.
pub fn demo_engine(alloc: Global) -> Result<Engine<ListWrapper>, RunFault<'static>>
    ensures { IfOk result (λ engine. IsSound (shown box_of engine)) }
{
    let list = ListWrapper::new(alloc, demo_tables(alloc)?)?;
    let Ok(mut engine) = Engine::<ListWrapper>::new(alloc, "admin") else {
        drop(list);
        return Err(RunFault::NoMemory);
    };
    match add_demo(alloc, &mut engine, "admin", "demo", list) {
        Ok(()) => Ok(engine),
        Err(fault) => {
            drop(engine);
            Err(fault)
        }
    }
}
