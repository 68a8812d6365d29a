// The rehearsal of 01 slot by slot: its start, and one slot of all flows with check 14.
#![tactic(auto)]

ghost use Rattle.std.specs.Prelude.{◌≡◌};
ghost use Rattle.rulings.specs.Outcome.{outcome};
ghost use Rattle.moves.specs.Hops.{own};
ghost use Rattle.simulation.specs.Slot.{slot_of, start_of};

use moves::advance;
use rulings::{Fault, Verdict};
use site::Site;
use site_check::call_fault;

// 01: a start sets all 576 counters to 0.
#[tactic(auto, using(crate::proofs::Laws::Answers::start_rules))]
pub fn start(site: Site, counters: &mut [u32]) -> Verdict
    ensures { (outcome result, counters.new) ≡ start_of site counters.old }
{
    if let Err(fault) = call_fault(&site, counters) {
        return Err(fault.at(0));
    }
    counters::clear(counters);
    Ok(())
}

// One slot. Its checks in their order: 1 and 14, 19, 20.
#[tactic(auto, using(crate::proofs::Laws::slot_rules))]
pub fn slot(site: Site, counters: &mut [u32], arrivals: &[u16], number: u32) -> Verdict
    ensures { (outcome result, counters.new) ≡ slot_of own site counters.old arrivals.now number }
{
    if arrivals.len() != 64 {
        return Err(Fault::WrongLength.at(0));
    }
    if let Err(found) = call_fault(&site, counters) {
        return Err(found.at(0));
    }
    advance(&site, counters, arrivals, number)
}
