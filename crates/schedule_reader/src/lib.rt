// The reading of schedule files.
#![tactic(auto)]

ghost use Rattle.std.specs.Prelude.{◌≡◌, ℕ, ◌+◌, ◌<◌, List, IfOk, length};
ghost use Rattle.rulings.specs.Outcome.{fault_number, outcome};
ghost use Rattle.format.specs.Reading.{ended};
ghost use Rattle.schedule_check.specs.Schedules.{of_lists};
ghost use Rattle.schedule_reader.specs.Read.{with_links, link_at, out_of_order, link_fault, next_link, read_into, schedule_read};

use format::{END, LINK};
use rulings::{Fault, Refusal, Verdict};
use schedule_check::{Schedule, bad_slots};

// The operands of a LINK.
#[derive(Clone, Copy, PartialEq, Eq, Debug)]
pub struct Link {
    pub node: u8,
    pub offset: u16,
    pub period: u16,
}

// The verdict of a reading, and the schedule that it gives. 01: a refusal comes with the one without links.
#[derive(Clone, Copy, PartialEq, Eq, Debug)]
pub struct Reading {
    pub verdict: Verdict,
    pub schedule: Schedule,
}

// Whether a LINK behind so many others has not the next number, or there is none left.
#[tactic(auto, unfolding(crate::specs::Read::out_of_order))]
fn out_of_order(links: u8, node: u8) -> bool
    ensures { result ≡ out_of_order links node }
{
    63 <= links || node != links + 1
}

// 21 and 22 for a LINK behind so many others.
#[tactic(auto, unfolding(crate::specs::Read::link_fault))]
fn link_fault(links: u8, link: Link) -> Result<(), Fault>
    ensures { fault_number result ≡ link_fault links link }
{
    if out_of_order(links, link.node) {
        return Err(Fault::LinkOutOfOrder);
    }
    if bad_slots(link.offset, link.period) {
        return Err(Fault::SlotsOutside);
    }
    Ok(())
}

// The operands of the LINK at index `at`.
#[tactic(auto, using(format::proofs::Laws::number_one, format::proofs::Laws::number_two), unfolding(crate::specs::Read::link_at))]
fn link_at(bytes: &[u8], at: usize) -> Link
    requires { at + 5 < length bytes.now }
    ensures { result ≡ link_at bytes.now at }
{
    Link {
        node: bytes[at + 1],
        offset: format::word(bytes[at + 2], bytes[at + 3]),
        period: format::word(bytes[at + 4], bytes[at + 5]),
    }
}

// The command at index `at`, which is not END, as a LINK behind so many others.
#[tactic(auto, using(rulings::proofs::Laws::Faults::number_some), unfolding(format::specs::Reading::fault_of, format::specs::Commands::schedule_size, crate::specs::Read::link_fault, crate::specs::Read::out_of_order))]
fn next_link(bytes: &[u8], at: usize, links: u8) -> Result<Link, Refusal>
    requires { at < length bytes.now }
    ensures judged { (s : Schedule) → s.links ≡ links → outcome result ≡ next_link bytes.now at s }
    ensures room { IfOk result (λ link. (links < 63) × (at + 5 < length bytes.now)) }
{
    let size = format::schedule_size(bytes[at]);
    if size == 0 {
        return Err(Fault::UnknownCommand.at(at));
    }
    if bytes.len() - at < size {
        return Err(Fault::CutOff.at(at));
    }
    let link = link_at(bytes, at);
    if let Err(fault) = link_fault(links, link) {
        return Err(fault.at(at));
    }
    Ok(link)
}

// END at index `at` of so many bytes, behind so many links: 10.
#[tactic(auto, unfolding(format::specs::Reading::ended))]
fn end(size: usize, at: usize, links: u8) -> Result<u8, Refusal>
    requires { at < size }
    ensures { (offsets periods : List ℕ) → read_into result offsets periods ≡ ended size at (of_lists links offsets periods) }
{
    let next = at + 1;
    if next < size {
        return Err(Fault::BytesBehindEnd.at(next));
    }
    Ok(links)
}

// Fills in the schedule that the bytes stand for, and tells its links; where they are refused, what is filled in says nothing.
#[tactic(auto, unfolding(format::specs::Commands::schedule_size))]
pub fn read_lists(
    bytes: &[u8],
    offsets: &mut [u16; 63],
    periods: &mut [u16; 63],
) -> Result<u8, Refusal>
    ensures { read_into result offsets.new periods.new ≡ schedule_read bytes.now }
{
    *offsets = [0; 63];
    *periods = [0; 63];
    let mut links: u8 = 0;
    let mut at = 0;
    while at < bytes.len() {
        if bytes[at] == END {
            return end(bytes.len(), at, links);
        }
        let link = next_link(bytes, at, links)?;
        let i = links as usize;
        offsets[i] = link.offset;
        periods[i] = link.period;
        links += 1;
        at += format::schedule_size(LINK);
    }
    Err(Fault::CutOff.at(bytes.len()))
}

// The schedule that the bytes stand for.
#[tactic(auto, unfolding(crate::specs::Read::with_links, rulings::specs::Outcome::or_else))]
pub fn read_schedule(bytes: &[u8]) -> Reading
    ensures { (outcome result.verdict, result.schedule) ≡ with_links (schedule_read bytes.now) }
{
    let mut schedule = Schedule::without_links();
    match read_lists(bytes, &mut schedule.offsets, &mut schedule.periods) {
        Ok(links) => {
            schedule.links = links;
            Reading {
                verdict: Ok(()),
                schedule,
            }
        }
        Err(refusal) => Reading {
            verdict: Err(refusal),
            schedule: Schedule::without_links(),
        },
    }
}
