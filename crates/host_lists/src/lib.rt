// Schedules and the slot rule as lists that a host lends: a schedule file read to lists and written from them, and the slot rule alone.
#![tactic(auto)]

ghost use Rattle.std.specs.Prelude.{◌≡◌};
ghost use Rattle.slot_rule.specs.Assign.{assigned};
ghost use Rattle.host_answers.specs.Answers.{told};
ghost use Rattle.host_lists.specs.Lists.{schedule_read_from, schedule_written_from};

use host_answers::{answer, refusal_of};
use rulings::Fault;

// Both lists are filled whole: what stood past the links is no part of a schedule. 1 comes first, so that a list that cannot hold a schedule is told before the
// file is read. The reading goes to lists of its own, since a refused one leaves the host's as they are.
#[tactic(auto, using(crate::proofs::Laws::Ends::schedule_told), unfolding(crate::specs::Lists::schedule_read_from, host_answers::specs::Calls::of_length, host_answers::specs::Calls::by_reading))]
pub fn read_schedule(file: &[u8], offsets: &mut [u16], periods: &mut [u16]) -> u64
    ensures { (told result, offsets.new, periods.new)
        ≡ schedule_read_from file.now offsets.old periods.old }
{
    if offsets.len() != 63 || periods.len() != 63 {
        return refusal_of(Fault::WrongLength);
    }
    let mut starts = [0; 63];
    let mut lengths = [0; 63];
    match schedule_reader::read_lists(file, &mut starts, &mut lengths) {
        Ok(links) => {
            offsets.copy_from_slice(&starts);
            periods.copy_from_slice(&lengths);
            links as u64
        }
        Err(refused) => answer(Err(refused)),
    }
}

// The lists are judged by check 14 of a schedule, since a host may have made them.
#[tactic(auto, unfolding(crate::specs::Lists::schedule_written_from, host_answers::specs::Calls::of_length))]
pub fn write_schedule(links: u8, offsets: &[u16], periods: &[u16], out: &mut [u8]) -> u64
    ensures { (told result, out.new)
        ≡ schedule_written_from links offsets.now periods.now out.old }
{
    if offsets.len() != 63 || periods.len() != 63 {
        return refusal_of(Fault::WrongLength);
    }
    answer(schedule_writer::write_lists(links, offsets, periods, out).map(|size| size as u64))
}

// 01 wants the slot rule by itself, for those who have neither a plan nor flows.
pub fn assign(gaps: &[u16], offsets: &mut [u16], periods: &mut [u16]) -> u64
    ensures { (told result, offsets.new, periods.new)
        ≡ assigned 2 gaps.now offsets.old periods.old }
{
    answer(pinwheel::assign(gaps, offsets, periods).map(u64::from))
}
