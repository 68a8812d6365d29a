// The slot rule: from the gaps wanted by the children of one parent it assigns their periods and offsets. It knows no plans, bytes or flows.
#![tactic(auto)]

mod offsets;
mod periods;

ghost use Rattle.std.specs.Prelude.{◌≡◌};
ghost use Rattle.rulings.specs.Outcome.{outcome};
ghost use Rattle.slot_rule.specs.Assign.{assigned};
ghost use Rattle.slot_rule.specs.Rule.{sends};

use rulings::{Fault, Refusal};

// Fills both lists, which are as long as the gaps, and answers the base, which a plan's report prints. Nothing is written before the last check has passed.
#[tactic(auto, using(bases::proofs::Laws::nothing_is), unfolding(slot_rule::specs::Assign::assigned))]
pub fn assign(gaps: &[u16], offsets: &mut [u16], periods: &mut [u16]) -> Result<u16, Refusal>
    ensures { (outcome result, offsets.new, periods.new)
        ≡ assigned 2 gaps.now offsets.old periods.old }
{
    let n = gaps.len();
    if offsets.len() != n || periods.len() != n {
        return Err(Fault::WrongLength.at(0));
    }
    if n == 0 || 63 < n {
        return Err(Fault::OutsideLimits.at(0));
    }
    if let Some(bad) = bases::first_bad(gaps) {
        return Err(Fault::OutsideLimits.at(bad));
    }
    let Some(base) = bases::base_of(gaps, 2) else {
        return Err(Fault::Crowded.at(0));
    };
    periods::fill(gaps, base, 2, periods);
    offsets::fill(periods, offsets);
    Ok(base)
}

// Slot rule 6: a link of this period and offset sends in the slot.
#[tactic(auto, unfolding(slot_rule::specs::Rule::sends))]
pub fn sends_in(period: u16, offset: u16, slot: u32) -> bool
    ensures { result ≡ sends period offset slot }
{
    if period == 0 {
        return slot == u32::from(offset);
    }
    slot % u32::from(period) == u32::from(offset)
}
