// The calls of a host that read a plan and change none: its sizes, its schedule, the rehearsal, who sends, and the bound of a flow. The site that was read stays where
// the reading put it, and is lent from there: it has 887 bytes.
#![tactic(auto)]

ghost use Rattle.std.specs.Prelude.{◌≡◌};
ghost use Rattle.host_answers.specs.Answers.{told};
ghost use Rattle.host_calls.specs.Calls.{plan_read_from, schedule_from, start_from, slot_from, sender_from, bound_from};

use host_answers::{answer, refusal_of};
use rulings::Fault;

// What refuses the reading is told as it is: by this call a host learns what is wrong with its bytes.
#[tactic(auto, unfolding(crate::specs::Calls::plan_read_from, host_answers::specs::Calls::by_reading))]
pub fn read_plan(plan: &[u8]) -> u64
    ensures { told result ≡ plan_read_from plan.now }
{
    match plan_reader::read_site(plan) {
        Ok(site) => host_answers::sizes(&site),
        Err(reason) => answer(Err(reason)),
    }
}

// The site was just read, so that only the slice is left to judge, and the writer does not ask check 14 again: the law `plain_writing` of crate site_check.
pub fn schedule(plan: &[u8], out: &mut [u8]) -> u64
    ensures { (told result, out.new) ≡ schedule_from plan.now out.old }
{
    match &plan_reader::read_site(plan) {
        Ok(site) => answer(schedule_writer::encode_lists(
            site.links,
            &site.offsets,
            &site.periods,
            out,
        ).map(|size| size as u64)),
        Err(refused) => answer(Err(*refused)),
    }
}

// Bytes that read to no site are 14 here and in every call below: they are no live site.
#[tactic(auto, unfolding(crate::specs::Calls::start_from, host_answers::specs::Calls::of_length, host_answers::specs::Calls::on_site, host_answers::specs::Calls::by_reading))]
pub fn start(plan: &[u8], counters: &mut [u32]) -> u64
    ensures { (told result, counters.new) ≡ start_from plan.now counters.old }
{
    if counters.len() != 576 {
        return refusal_of(Fault::WrongLength);
    }
    let Ok(_site) = plan_reader::read_site(plan) else {
        return refusal_of(Fault::NoSite);
    };
    counters::clear(counters);
    0
}

// One slot. Check 14 is not asked again of the site that was read, which passes it: the law `slot_advances` of crate simulation.
#[tactic(auto, unfolding(crate::specs::Calls::slot_from, host_answers::specs::Calls::of_length, host_answers::specs::Calls::on_site, host_answers::specs::Calls::by_reading))]
pub fn slot(plan: &[u8], counters: &mut [u32], arrivals: &[u16], number: u32) -> u64
    ensures { (told result, counters.new) ≡ slot_from plan.now counters.old arrivals.now number }
{
    if counters.len() != 576 {
        return refusal_of(Fault::WrongLength);
    }
    if arrivals.len() != 64 {
        return refusal_of(Fault::WrongLength);
    }
    let read = plan_reader::read_site(plan);
    let Ok(site) = &read else {
        return refusal_of(Fault::NoSite);
    };
    answer(moves::advance(site, counters, arrivals, number).map(|()| 0))
}

// The child that sends. Check 14 is not asked again of the site that was read, which passes it: the law `sender_looks` of crate sender.
#[tactic(auto, unfolding(crate::specs::Calls::sender_from, host_answers::specs::Calls::on_site, host_answers::specs::Calls::by_reading))]
pub fn sender(plan: &[u8], parent: u8, slot: u32) -> u64
    ensures { told result ≡ sender_from plan.now parent slot }
{
    let read = plan_reader::read_site(plan);
    let Ok(site) = &read else {
        return refusal_of(Fault::NoSite);
    };
    answer(sender::look_up(site, parent, slot).map(u64::from))
}

// 5 and 16 as for a release, since only a live flow has a bound.
#[tactic(auto, unfolding(crate::specs::Calls::bound_from, host_answers::specs::Calls::on_site, host_answers::specs::Calls::by_reading))]
pub fn bound(plan: &[u8], flow: u8) -> u64
    ensures { told result ≡ bound_from plan.now flow }
{
    let read = plan_reader::read_site(plan);
    let Ok(site) = &read else {
        return refusal_of(Fault::NoSite);
    };
    host_answers::bound_of(site, flow)
}
