// The functions for hosts in C and Rust (include/slotplan_lib.h), which slotplan_lib_c exports. The state of a site is its plan bytes; each answer is one number
// of 64 bits. The eleven are one subject, the names that a host links, and each is one call, so that what a call does is said and proved once, in the crate of
// its subject.
#![tactic(auto)]

ghost use Rattle.std.specs.Prelude.{◌≡◌};
ghost use Rattle.slot_rule.specs.Assign.{assigned};
ghost use Rattle.host_answers.specs.Answers.{told};
ghost use Rattle.host_calls.specs.Calls.{plan_read_from, schedule_from, start_from, slot_from, sender_from, bound_from};
ghost use Rattle.host_changes.specs.Changes.{admit_from, release_from};
ghost use Rattle.host_lists.specs.Lists.{schedule_read_from, schedule_written_from};

// 01: the reader. A host learns by it whether bytes are a plan, and else which check refuses them.
pub fn slotplan_read_plan(plan: &[u8]) -> u64
    ensures { told result ≡ plan_read_from plan.now }
{
    host_calls::read_plan(plan)
}

// 01: the schedule of a plan, as LINK commands.
pub fn slotplan_schedule(plan: &[u8], out: &mut [u8]) -> u64
    ensures { (told result, out.new) ≡ schedule_from plan.now out.old }
{
    host_calls::schedule(plan, out)
}

// 02, U1: a schedule file by itself, with no plan to judge it by.
pub fn slotplan_read_schedule(file: &[u8], offsets: &mut [u16], periods: &mut [u16]) -> u64
    ensures { (told result, offsets.new, periods.new)
        ≡ schedule_read_from file.now offsets.old periods.old }
{
    host_lists::read_schedule(file, offsets, periods)
}

// 02, U1: the way back, with the check 14 of a schedule.
pub fn slotplan_write_schedule<'a>(
    links: u8,
    offsets: &'a [u16],
    periods: &'a [u16],
    out: &mut [u8],
) -> u64
    ensures { (told result, out.new)
        ≡ schedule_written_from links offsets.now periods.now out.old }
{
    host_lists::write_schedule(links, offsets, periods, out)
}

// 01: an admission on plan bytes, so that what it writes is the live site.
pub fn slotplan_admit(
    plan: &[u8],
    counters: &mut [u32],
    number: u8,
    entry: u8,
    rate: u8,
    deadline: u16,
    out: &mut [u8],
) -> u64
    ensures { (told result, counters.new, out.new)
        ≡ admit_from plan.now counters.old (record { number = number; entry = entry; rate = rate; deadline = deadline }) out.old }
{
    host_changes::admit(plan, counters, number, entry, rate, deadline, out)
}

// 01: a release on plan bytes, likewise.
pub fn slotplan_release(plan: &[u8], counters: &mut [u32], number: u8, out: &mut [u8]) -> u64
    ensures { (told result, counters.new, out.new) ≡ release_from plan.now counters.old number out.old }
{
    host_changes::release(plan, counters, number, out)
}

// 01: a start asks check 14 before it clears anything, so it takes the plan too.
pub fn slotplan_start(plan: &[u8], counters: &mut [u32]) -> u64
    ensures { (told result, counters.new) ≡ start_from plan.now counters.old }
{
    host_calls::start(plan, counters)
}

// 01: one slot. The bytes are all that a host keeps of a site, so check 14 is asked in each.
pub fn slotplan_slot(plan: &[u8], counters: &mut [u32], arrivals: &[u16], slot: u32) -> u64
    ensures { (told result, counters.new) ≡ slot_from plan.now counters.old arrivals.now slot }
{
    host_calls::slot(plan, counters, arrivals, slot)
}

// 01: the lookup of parent and slot.
pub fn slotplan_sender(plan: &[u8], parent: u8, slot: u32) -> u64
    ensures { told result ≡ sender_from plan.now parent slot }
{
    host_calls::sender(plan, parent, slot)
}

// G, which a report prints beside the deadline, for hosts that print nothing.
pub fn slotplan_bound(plan: &[u8], number: u8) -> u64
    ensures { told result ≡ bound_from plan.now number }
{
    host_calls::bound(plan, number)
}

// 01 wants the slot rule by itself, for those who have neither a plan nor flows.
pub fn slotplan_assign(gaps: &[u16], offsets: &mut [u16], periods: &mut [u16]) -> u64
    ensures { (told result, offsets.new, periods.new) ≡ assigned 2 gaps.now offsets.old periods.old }
{
    host_lists::assign(gaps, offsets, periods)
}
