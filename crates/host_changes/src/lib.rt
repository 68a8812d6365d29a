// Changes of a live site that a host keeps as plan bytes: a flow is admitted or released, and the plan of the changed site is written.
#![tactic(auto)]

ghost use Rattle.std.specs.Prelude.{◌≡◌, ◌≤◌};
ghost use Rattle.admission.specs.Calls.{admit_of, release_of};
ghost use Rattle.admission.specs.Words.{Admissible, Releasable};
ghost use Rattle.plan_writer.specs.Write.{plan_bytes, flow_place};
ghost use Rattle.host_answers.specs.Answers.{told};
ghost use Rattle.host_changes.specs.Changes.{rewritten, admit_from, release_from};

use host_answers::{answer, refusal_of};
use rulings::Fault;
use site::{Flow, Site};

// Where the FLOW of this number stands in the plan of the site, or would stand: behind all nodes and the live flows below.
fn place_of(site: &Site, number: u8) -> usize
    requires { number ≤ 63 }
    ensures { result ≡ flow_place site.now number }
{
    let mut below = 0;
    for n in 0..number {
        if site.states[n as usize] == 1 {
            below += 1;
        }
    }
    format::size(format::NODE) * site.links as usize + format::size(format::FLOW) * below
}

// The plan of a site that a flow comes to is the old one with six bytes more: the law `plan_with_flow` of crate `plan_writer`. The cells are cleared last, since
// too short a slice is to change nothing.
fn inserted(site: &Site, plan: &[u8], counters: &mut [u32], flow: Flow, out: &mut [u8]) -> u64
    requires { Admissible site.now counters.old flow × (plan_bytes site.now ≡ plan.now) }
    ensures { (told result, counters.new, out.new) ≡ rewritten (admit_of site.now counters.old flow) counters.old out.old }
{
    let size = plan.len() + format::size(format::FLOW);
    if out.len() < size {
        return refusal_of(Fault::WrongLength);
    }
    let at = place_of(site, flow.number);
    let command = plan_writer::flow_command(flow.number, flow.entry, flow.rate, flow.deadline);
    let kept = slices::put(out, 0, &plan[..at]);
    let added = slices::put(out, kept, &command);
    slices::put(out, added, &plan[at..]);
    counters::clear_flow(counters, flow.number);
    size as u64
}

// The plan of a site that a flow leaves is the old one with six bytes less: the law `plan_without_flow`.
fn dropped(site: &Site, plan: &[u8], counters: &mut [u32], number: u8, out: &mut [u8]) -> u64
    requires { Releasable site.now counters.old number × (plan_bytes site.now ≡ plan.now) }
    ensures { (told result, counters.new, out.new) ≡ rewritten (release_of site.now counters.old number) counters.old out.old }
{
    let size = plan.len() - format::size(format::FLOW);
    if out.len() < size {
        return refusal_of(Fault::WrongLength);
    }
    let at = place_of(site, number);
    let behind = at + format::size(format::FLOW);
    let kept = slices::put(out, 0, &plan[..at]);
    slices::put(out, kept, &plan[behind..]);
    counters::clear_flow(counters, number);
    size as u64
}

// The operands come one by one, since C has no value of a flow; a plan that reads to no site is 14.
#[tactic(auto, unfolding(crate::specs::Changes::admit_from, host_answers::specs::Calls::of_length, host_answers::specs::Calls::on_site, host_answers::specs::Calls::by_reading))]
pub fn admit(
    plan: &[u8],
    counters: &mut [u32],
    number: u8,
    entry: u8,
    rate: u8,
    deadline: u16,
    out: &mut [u8],
) -> u64
    ensures { (told result, counters.new, out.new)
        ≡ admit_from plan.now counters.old (record { number = number; entry = entry; rate = rate; deadline = deadline }) out.old }
{
    if counters.len() != 576 {
        return refusal_of(Fault::WrongLength);
    }
    let mut loads = [0u32; 63];
    let read = plan_reader::read_with(plan, &mut loads);
    let Ok(site) = &read else {
        return refusal_of(Fault::NoSite);
    };
    let flow = Flow {
        number,
        entry,
        rate,
        deadline,
    };
    match flow_checks::judge_flow(site, &loads, flow) {
        Ok(()) => inserted(site, plan, counters, flow, out),
        Err(refused) => answer(Err(refused)),
    }
}

// The old bytes stay as they are, so that a host can go back where the slice was too short.
#[tactic(auto, unfolding(crate::specs::Changes::release_from, host_answers::specs::Calls::of_length, host_answers::specs::Calls::on_site, host_answers::specs::Calls::by_reading))]
pub fn release(plan: &[u8], counters: &mut [u32], number: u8, out: &mut [u8]) -> u64
    ensures { (told result, counters.new, out.new)
        ≡ release_from plan.now counters.old number out.old }
{
    if counters.len() != 576 {
        return refusal_of(Fault::WrongLength);
    }
    let read = plan_reader::read_site(plan);
    let Ok(site) = &read else {
        return refusal_of(Fault::NoSite);
    };
    match flow_checks::judge_number(&site.states, number) {
        Ok(()) => dropped(site, plan, counters, number, out),
        Err(refused) => answer(Err(refused)),
    }
}
