//! What the boxes agree to.
ghost use Rattle.std.specs.Prelude.{◌≡◌, map, IfOk, IfErr};
ghost use Rattle.fdw_api.specs.declared.interface.Fault.TheVariants.{NoMemory as WantOfMemory};
ghost use Rattle.fdw_api.specs.Wishes.{wish_form};
ghost use Rattle.pushdown.specs.Joins.{Each};
ghost use Rattle.scan_loops.specs.Slots.{states};
ghost use Rattle.med_planner.specs.Offered.{offer_form};
ghost use Rattle.med_planner.specs.Premises.{IsAllowed, AreAllowed};
ghost use Rattle.med_exec.specs.Offers.{IsOffered};

use fdw_api::interface::Fault;
use fdw_api::wishes::{Agreement2, Wish, Wrapper2};
use med_planner::LoopOffer;
use scan_loops::plan2_at;
use std::alloc::Global;

// What the box of an offer agrees to under a wish.
fn agree<W: Wrapper2>(
    slots: &Vec<Option<W>>,
    alloc: Global,
    wish: &Wish,
    offer: &LoopOffer,
) -> Result<Agreement2, Fault>
    requires { IsOffered (states W.meaning slots.now.items) (offer_form offer.now) }
    ensures ok { IfOk result (λ a. IsAllowed (states W.meaning slots.now.items) (wish_form wish.now) (offer_form offer.now) a) }
    ensures err { IfErr result (λ fault. fault ≡ WantOfMemory) }
{
    let wanted = offer.wanted.as_slice();
    let offered = offer.entry.restrictions.as_slice();
    let agreement = match plan2_at(
        slots,
        alloc,
        offer.source,
        offer.table,
        wanted,
        offered,
        wish,
    ) {
        Ok(agreement) => agreement,
        Err(fault) => return Err(fault),
    };
    Ok(agreement)
}

/// What the boxes agree to of the scans of one core: each offer is put to the box of its own source, with the wish. Refused only for want
/// of memory.
pub(crate) fn agree_core<W: Wrapper2>(
    slots: &Vec<Option<W>>,
    alloc: Global,
    wish: &Wish,
    offers: &[LoopOffer],
) -> Result<Vec<Agreement2>, Fault>
    requires { Each (IsOffered (states W.meaning slots.now.items)) (map offer_form offers.now) }
    ensures ok { IfOk result (λ all. AreAllowed (states W.meaning slots.now.items) (wish_form wish.now) (map offer_form offers.now)
        all.items) }
    ensures err { IfErr result (λ fault. fault ≡ WantOfMemory) }
{
    let mut all = Vec::new(alloc);
    for offer in offers {
        let agreement = match agree(slots, alloc, wish, offer) {
            Ok(agreement) => agreement,
            Err(fault) => return Err(fault),
        };
        if all.push(agreement).is_err() {
            return Err(Fault::NoMemory);
        }
    }
    Ok(all)
}
