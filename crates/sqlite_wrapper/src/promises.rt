//! What of a wish a scan of a remote table promises: its rows come by ascending keys, and no more of them than a limit says.
ghost use Rattle.std.specs.Prelude.{◌≡◌, map, IfOk};
ghost use Rattle.fdw_api.specs.Wishes.{all_exact, key_form, spec2_of};
ghost use Rattle.sqlite_wrapper.specs.Boxes.{is_by_key};

use fdw_api::scan::Agree;
use fdw_api::wishes::{OrderKey, ScanSpec2};
use med_value::NoMemory;
use std::alloc::Global;

/// Returns whether rows that come by ascending keys are in this order: it is empty, or the key alone, ascending. No key is NULL.
pub(crate) fn is_by_key(order: &[OrderKey]) -> bool
    ensures { result ≡ is_by_key (map key_form order.now) }
{
    match order {
        [] => true,
        [key] => key.column == 0 && !key.desc,
        _ => false,
    }
}

/// Whether each restriction is answered Exact.
pub(crate) fn all_exact(answers: &[Agree]) -> bool
    ensures { result ≡ all_exact answers.now }
{
    let mut answers = answers;
    while let Some((answer, rest)) = answers.split_first() {
        match answer {
            Agree::Exact => answers = rest,
            Agree::Hint | Agree::Ignored => return false,
        }
    }
    true
}

/// The keys of the order that is promised of a scan, none where no order is.
pub(crate) fn promised_order(alloc: Global, spec: &ScanSpec2) -> Result<Vec<OrderKey>, NoMemory>
    ensures { IfOk result (λ keys. map key_form keys.items ≡ (spec2_of spec.now).order) }
{
    if spec.ordered {
        Ok(spec.wish.order.clone()?)
    } else {
        Ok(Vec::new(alloc))
    }
}

/// How many rows are promised to be all that come of a scan.
pub(crate) fn promised_limit(spec: &ScanSpec2) -> Option<u64>
    ensures { result ≡ (spec2_of spec.now).limit }
{
    if spec.limited { spec.wish.limit } else { None }
}
