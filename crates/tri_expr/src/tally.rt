//! Aggregates over values that are added one by one.

ghost use Rattle.std.specs.Prelude.{◌≡◌, ◌<◌, ◌≤◌, ◌+◌, ◌*◌, ◌^◌, if◌then◌else◌, [], List};
ghost use Rattle.med_value.specs.Datum.{Datum};
ghost use Rattle.tri_expr.specs.Outcome.{ranged};
ghost use Rattle.tri_expr.specs.View.{seen, Sees};
ghost use Rattle.tri_expr.specs.Aggregate.{aggregated, whole_of};
ghost use Rattle.tri_expr.specs.Tally.{Tallied, IsAdded, magnitude, better_of, finished};

use crate::expr::{Fault, SetFunction};
use crate::view::{View, compare_views, is_null};

/// An aggregate over the values that were added. The total is exact: it has room for 2^63 numbers of 64 bits.
#[derive(Clone, Copy)]
pub struct Tally<'a> {
    pub function: SetFunction,
    pub count: u64,
    pub total: i128,
    pub best: View<'a>,
}

// The number that a value adds to the total; 0 for a value that is no number.
fn whole(v: View<'_>) -> i128
    ensures is { result ≡ whole_of (seen v.entry) }
    ensures small { magnitude result ≤ 2 ^ 63 }
{
    match v {
        View::Int(n) => n as i128,
        _ => 0,
    }
}

// Whether MIN or MAX holds this value in the place of its best one; COUNT and SUM hold none.
fn is_better(function: SetFunction, v: View<'_>, best: View<'_>) -> bool
    ensures { (if result then seen v.entry else seen best.entry) ≡ better_of function (seen best.entry) (seen v.entry) }
{
    if is_null(v) {
        return false;
    }
    match function {
        SetFunction::Min => is_null(best) || compare_views(v, best).is_lt(),
        SetFunction::Max => is_null(best) || compare_views(best, v).is_lt(),
        SetFunction::Count => false,
        SetFunction::Sum => false,
    }
}

// The total as a number of 64 bits, or a fault where it is out of range.
fn in_range(total: i128) -> Result<View<'static>, Fault>
    ensures { Sees result (ranged total) }
{
    match i64::try_from(total) {
        Ok(n) => Ok(View::Int(n)),
        Err(_) => Err(Fault::Range),
    }
}

impl<'a> Tally<'a> {
    /// An aggregate over no values yet.
    pub fn new(function: SetFunction) -> Tally<'a>
        ensures tallied { Tallied result [] }
        ensures function { result.function ≡ function }
        ensures none { result.count ≡ 0 }
        ensures small { magnitude result.total ≤ result.count * 2 ^ 63 }
    {
        Tally {
            function,
            count: 0,
            total: 0,
            best: View::Null,
        }
    }

    /// Adds one more value; NULL is skipped.
    pub fn add(&mut self, v: View<'a>)
        requires few { self.now.count < 2 ^ 63 }
        requires small { magnitude self.now.total ≤ self.now.count * 2 ^ 63 }
        ensures added { IsAdded self.old self.new (seen v.entry) }
        ensures still_small { magnitude self.new.total ≤ self.new.count * 2 ^ 63 }
        ensures one_more { self.new.count ≤ self.old.count + 1 }
    {
        if is_null(v) {
            return;
        }
        self.count += 1;
        self.total += whole(v);
        if is_better(self.function, v, self.best) {
            self.best = v;
        }
    }

    // What the aggregate ends in, by its count, its total and its best value.
    fn answer(self) -> Result<View<'a>, Fault>
        requires few { self.count < 2 ^ 63 }
        ensures { Sees result (finished self.entry.function self.entry.count self.entry.total (seen self.entry.best)) }
    {
        match self.function {
            SetFunction::Count => Ok(View::Int(self.count as i64)),
            SetFunction::Sum => {
                if self.count == 0 {
                    Ok(View::Null)
                } else {
                    in_range(self.total)
                }
            }
            SetFunction::Min => Ok(self.best),
            SetFunction::Max => Ok(self.best),
        }
    }

    /// The aggregate over all values that were added.
    pub fn finish(self) -> Result<View<'a>, Fault>
        requires few { self.count < 2 ^ 63 }
        ensures { (vs : List Datum) → Tallied self.entry vs → Sees result (aggregated self.entry.function vs) }
    {
        self.answer()
    }
}
