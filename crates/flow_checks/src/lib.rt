// The checks of a flow that is to come to a live site and of a number that is to go, without 1 and 14 (01: the desk).
#![tactic(auto)]

ghost use Rattle.std.specs.Prelude.{◌≡◌};
ghost use Rattle.rulings.specs.Outcome.{outcome};
ghost use Rattle.site.specs.declared.Site.{Site};
ghost use Rattle.site.specs.Sites.{with_states};
ghost use Rattle.flow_checks.specs.Flows.{number_ruling};
ghost use Rattle.flow_checks.specs.Inner.{flow_ruling_by};

use rulings::{Fault, Verdict};
use site::{Flow, Site};

// The checks of a flow that is to come to a site, besides 1 and 14 and in their order: 5 and 6, 15, 17, 18. It goes by the loads that it is lent. It is no
// operation of 01: with 576 counters, on a site that passes and with its own loads, these are all that an admission asks, by the law `admission_judged` of
// crate `admission`.
#[tactic(auto, using(crate::proofs::Laws::Answers::judging), unfolding(crate::specs::Inner::flow_ruling_with, reservations::specs::Reservations::periods_judged, rulings::specs::Outcome::checked))]
pub fn judge_flow(site: &Site, loads: &[u32; 63], flow: Flow) -> Verdict
    ensures { outcome result ≡ flow_ruling_by loads.now site.now flow }
{
    if let Err(fault) = limits::flow_limits(site.links, 0, flow) {
        return Err(fault.at(0));
    }
    if site.is_live(flow.number) {
        return Err(Fault::NumberLive.at(flow.number as usize));
    }
    if let Some(link) = link_loads::first_unfit(site, loads, flow.entry, flow.rate) {
        return Err(Fault::NoRoom.at(link as usize));
    }
    let gaps = bounds::sum_along(&site.periods, &site.parents, flow.entry);
    if (flow.deadline as u32) < gaps {
        return Err(Fault::TooLate.at(flow.number as usize));
    }
    Ok(())
}

// The checks of a number that is to go besides 1 and 14, in their order: 5, 16. They need the states alone. It is no operation of 01 either: the law is
// `release_judged` there.
#[tactic(auto, unfolding(crate::specs::Flows::number_ruling))]
pub fn judge_number(states: &[u8], number: u8) -> Verdict
    ensures { (s : Site) → outcome result ≡ number_ruling (with_states s states.now) number }
{
    if 63 < number {
        return Err(Fault::OutsideLimits.at(0));
    }
    if !site::live_in(states, number) {
        return Err(Fault::NumberNotLive.at(number as usize));
    }
    Ok(())
}
