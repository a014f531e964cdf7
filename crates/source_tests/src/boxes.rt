//! Wrappers round a source.
ghost use Rattle.std.specs.Prelude.{◌≡◌, [], List};
ghost use Rattle.fdw_api.specs.Prelude.{Column, IsIdle};
ghost use Rattle.probe_wrapper.specs.Counting.{counted};
ghost use Rattle.probe_wrapper.specs.Failing.{failed};
ghost use Rattle.probe_wrapper.specs.Shuffled.{reordered, turns_of};

use fdw_api::interface::Wrapper;
use probe_wrapper::{Counting, Failing, Shuffled};
use std::alloc::Global;

pub fn in_counting<W: Wrapper>(inner: W) -> Counting<W>
    requires idle { IsIdle (W.meaning inner) }
    requires free { (columns : List Column) → (W.meaning inner).nature.kind.objections columns [] ≡ [] }
    ensures idle { IsIdle (counted (W.meaning result.inner) result.pulled) }
    ensures free { (columns : List Column) → (counted (W.meaning result.inner) result.pulled).nature.kind.objections columns [] ≡ [] }
{
    Counting::new(inner)
}

pub fn in_failing<W: Wrapper>(inner: W, passes: u64) -> Failing<W>
    requires idle { IsIdle (W.meaning inner) }
    requires free { (columns : List Column) → (W.meaning inner).nature.kind.objections columns [] ≡ [] }
    ensures idle { IsIdle (failed (W.meaning result.inner) result.failure) }
    ensures free { (columns : List Column) → (failed (W.meaning result.inner) result.failure).nature.kind.objections columns [] ≡ [] }
{
    Failing::new(inner, passes)
}

pub fn in_shuffled<W: Wrapper>(alloc: Global, inner: W) -> Shuffled<W>
    requires idle { IsIdle (W.meaning inner) }
    requires free { (columns : List Column) → (W.meaning inner).nature.kind.objections columns [] ≡ [] }
    ensures idle { IsIdle (reordered (W.meaning result.inner) (turns_of result.scans) result.pulled) }
    ensures free { (columns : List Column)
        → (reordered (W.meaning result.inner) (turns_of result.scans) result.pulled).nature.kind.objections columns [] ≡ [] }
{
    Shuffled::new(alloc, inner)
}
