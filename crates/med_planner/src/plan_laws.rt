//! Laws of plans. A call does nothing: its contract is the law, proved for all expressions and rows. `specs/Premises.antt` says what a
//! bound query owes its plans.

ghost use Rattle.med_planner.specs.Places.{ColumnsDecide, ShiftedReadsBehind, TreesReadTheirColumns};
ghost use Rattle.med_planner.specs.Plans.{PlansAreLoopPlans, PlansAreSafe};
ghost use Rattle.med_planner.specs.Premises.{CountedIsInView, CountedIsWide, SoundIsWide, PlansAreTyped, PlansArePlain};
ghost use Rattle.med_planner.specs.Premises.{PlansCanStart, WishedComeInOrder, UnwishedAreUnlimited};

use pushdown::law::{marks_tell, offers_split};
use scan_loops::answer_laws::from_is_joined;

/// An expression reads its columns alone: over rows that have equal cells there it means the same, and with its columns at other places
/// what it meant over rows that have these cells at the old ones. An expression shifted by a number of places means, of rows with so many
/// cells before them, what it meant of those rows.
pub fn trees_read_their_columns()
    ensures alone { ColumnsDecide }
    ensures moved { TreesReadTheirColumns }
    ensures shifted { ShiftedReadsBehind }
{}

/// The levels that a core's offers and the boxes' answers make are a plan of its loops, whatever the boxes answered, as if no limit were
/// promised: with their boxes they decide the conditions, and the joined rows that pass these are, in the columns that the core reads,
/// those that the loops are to give. What they check may not fault, if no ON of the core may.
pub fn plans_are_loop_plans()
    ensures plans { PlansAreLoopPlans }
    ensures safe { PlansAreSafe }
{
    offers_split();
    marks_tell();
    from_is_joined();
}

/// A core that counts its entries, and reads columns of those that are in view, has them in view of its plan.
pub fn bound_cores_are_in_view()
    ensures { CountedIsInView }
{}

/// Where each row of an entry's table has a cell for each of its columns, the rows of FROM's entries are as wide as these. So are those
/// of honest boxes that have in their tables rows of their columns' types, whatever boxes stand beside these.
pub fn bound_rows_are_wide()
    ensures counted { CountedIsWide }
    ensures sound { SoundIsWide }
{}

/// Where a core compares columns of one type, and its entries' tables are bound, the scans of its levels are given parameters of their
/// columns' types, whatever the boxes answered.
pub fn bound_levels_are_typed()
    ensures { PlansAreTyped }
{}

/// The levels of a core are as wide as their tables and want columns of these, and what they check may not fault, if no ON of the core may.
pub fn bound_levels_are_plain()
    ensures { PlansArePlain }
{}

/// Where each box allows what the scan of its level is asked for, a run of the levels of a core may start.
pub fn bound_levels_can_start()
    ensures { PlansCanStart }
{}

/// Where a limit is promised of the scans of a query of one core, by boxes that promise a limit only where they may, the query has one
/// level, whose rows come in the order that ORDER BY asks for, none is checked again, and none is missed by the limit. Where no limit is
/// wished, none is promised.
pub fn wished_rows_come_in_order()
    ensures wished { WishedComeInOrder }
    ensures unwished { UnwishedAreUnlimited }
{}
