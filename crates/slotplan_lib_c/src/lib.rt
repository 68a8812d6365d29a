// What slotplan_lib offers, exported for hosts in C and Rust under the names of include/slotplan_lib.h: a crate is a library or an archive, not both. Each export
// is one call of the function of the same name and promises what that one promises; what the calls are for is said there.
#![tactic(auto)]

ghost use Rattle.std.specs.Prelude.{◌≡◌};
ghost use Rattle.slot_rule.specs.Assign.{assigned};
ghost use Rattle.host_answers.specs.Answers.{told};
ghost use Rattle.host_calls.specs.Calls.{plan_read_from, schedule_from, start_from, slot_from, sender_from, bound_from};
ghost use Rattle.host_changes.specs.Changes.{admit_from, release_from};
ghost use Rattle.host_lists.specs.Lists.{schedule_read_from, schedule_written_from};

#[unsafe(no_mangle)]
pub extern "C" fn slotplan_read_plan(plan: &[u8]) -> u64
    ensures { told result ≡ plan_read_from plan.now }
{
    slotplan_lib::slotplan_read_plan(plan)
}

#[unsafe(no_mangle)]
pub extern "C" fn slotplan_schedule(plan: &[u8], out: &mut [u8]) -> u64
    ensures { (told result, out.new) ≡ schedule_from plan.now out.old }
{
    slotplan_lib::slotplan_schedule(plan, out)
}

#[unsafe(no_mangle)]
pub extern "C" fn slotplan_read_schedule(
    file: &[u8],
    offsets: &mut [u16],
    periods: &mut [u16],
) -> u64
    ensures { (told result, offsets.new, periods.new)
        ≡ schedule_read_from file.now offsets.old periods.old }
{
    slotplan_lib::slotplan_read_schedule(file, offsets, periods)
}

#[unsafe(no_mangle)]
pub extern "C" fn slotplan_write_schedule<'a>(
    links: u8,
    offsets: &'a [u16],
    periods: &'a [u16],
    out: &mut [u8],
) -> u64
    ensures { (told result, out.new)
        ≡ schedule_written_from links offsets.now periods.now out.old }
{
    slotplan_lib::slotplan_write_schedule(links, offsets, periods, out)
}

#[unsafe(no_mangle)]
pub extern "C" fn slotplan_admit(
    plan: &[u8],
    counters: &mut [u32],
    number: u8,
    entry: u8,
    rate: u8,
    deadline: u16,
    out: &mut [u8],
) -> u64
    ensures { (told result, counters.new, out.new)
        ≡ admit_from plan.now counters.old (record { number = number; entry = entry; rate = rate; deadline = deadline }) out.old }
{
    slotplan_lib::slotplan_admit(plan, counters, number, entry, rate, deadline, out)
}

#[unsafe(no_mangle)]
pub extern "C" fn slotplan_release(
    plan: &[u8],
    counters: &mut [u32],
    number: u8,
    out: &mut [u8],
) -> u64
    ensures { (told result, counters.new, out.new) ≡ release_from plan.now counters.old number out.old }
{
    slotplan_lib::slotplan_release(plan, counters, number, out)
}

#[unsafe(no_mangle)]
pub extern "C" fn slotplan_start(plan: &[u8], counters: &mut [u32]) -> u64
    ensures { (told result, counters.new) ≡ start_from plan.now counters.old }
{
    slotplan_lib::slotplan_start(plan, counters)
}

#[unsafe(no_mangle)]
pub extern "C" fn slotplan_slot(
    plan: &[u8],
    counters: &mut [u32],
    arrivals: &[u16],
    slot: u32,
) -> u64
    ensures { (told result, counters.new) ≡ slot_from plan.now counters.old arrivals.now slot }
{
    slotplan_lib::slotplan_slot(plan, counters, arrivals, slot)
}

#[unsafe(no_mangle)]
pub extern "C" fn slotplan_sender(plan: &[u8], parent: u8, slot: u32) -> u64
    ensures { told result ≡ sender_from plan.now parent slot }
{
    slotplan_lib::slotplan_sender(plan, parent, slot)
}

#[unsafe(no_mangle)]
pub extern "C" fn slotplan_bound(plan: &[u8], number: u8) -> u64
    ensures { told result ≡ bound_from plan.now number }
{
    slotplan_lib::slotplan_bound(plan, number)
}

#[unsafe(no_mangle)]
pub extern "C" fn slotplan_assign(gaps: &[u16], offsets: &mut [u16], periods: &mut [u16]) -> u64
    ensures { (told result, offsets.new, periods.new) ≡ assigned 2 gaps.now offsets.old periods.old }
{
    slotplan_lib::slotplan_assign(gaps, offsets, periods)
}
