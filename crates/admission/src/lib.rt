// Flows that come to a live site and go (01: the desk).
#![tactic(auto)]

ghost use Rattle.std.specs.Prelude.{◌≡◌};
ghost use Rattle.rulings.specs.Outcome.{outcome};
ghost use Rattle.admission.specs.Calls.{admit_ruling, admit_of, release_ruling, release_of};

use judgement::Judged;
use rulings::Verdict;
use site::{Flow, Site};

// The checks of an admission in their order: 1 and 14, then those of the flow.
#[tactic(auto, using(rulings::proofs::Laws::Faults::number_some), unfolding(crate::specs::Calls::admit_ruling, rulings::specs::Outcome::checked))]
fn judge_admission(site: &Site, counters: &[u32], flow: Flow) -> Verdict
    ensures { outcome result ≡ admit_ruling site.now counters.now flow }
{
    if let Err(fault) = site_check::call_fault(site, counters) {
        return Err(fault.at(0));
    }
    flow_checks::judge_flow(site, &link_loads::loads(site), flow)
}

// The checks of a release in their order: 1 and 14, then those of the number.
#[tactic(auto, using(rulings::proofs::Laws::Faults::number_some), unfolding(crate::specs::Calls::release_ruling, rulings::specs::Outcome::checked))]
fn judge_release(site: &Site, counters: &[u32], number: u8) -> Verdict
    ensures { outcome result ≡ release_ruling site.now counters.now number }
{
    if let Err(fault) = site_check::call_fault(site, counters) {
        return Err(fault.at(0));
    }
    flow_checks::judge_number(&site.states, number)
}

// 01: an accepted admission makes the flow live and sets its nine cells to 0.
pub fn admit(site: Site, counters: &mut [u32], flow: Flow) -> Judged
    ensures { (outcome result.verdict, result.site, counters.new) ≡ admit_of site counters.old flow }
{
    if let Err(refusal) = judge_admission(&site, counters, flow) {
        return Judged {
            verdict: Err(refusal),
            site,
        };
    }
    counters::clear_flow(counters, flow.number);
    Judged {
        verdict: Ok(()),
        site: site.with_flow(flow),
    }
}

// 01: an accepted release frees the number and its widths and sets its nine cells to 0.
pub fn release(site: Site, counters: &mut [u32], number: u8) -> Judged
    ensures { (outcome result.verdict, result.site, counters.new) ≡ release_of site counters.old number }
{
    if let Err(refusal) = judge_release(&site, counters, number) {
        return Judged {
            verdict: Err(refusal),
            site,
        };
    }
    counters::clear_flow(counters, number);
    Judged {
        verdict: Ok(()),
        site: site.without_flow(number),
    }
}
