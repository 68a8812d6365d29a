// Writing schedules into a borrowed slice.
#![tactic(auto)]

ghost use Rattle.std.specs.Prelude.{◌≡◌, ◌≤◌, length};
ghost use Rattle.std.proofs.lemmas.List.Edits.{sets};
ghost use Rattle.rulings.specs.Outcome.{outcome};
ghost use Rattle.slices.specs.Written.{written, encoded};
ghost use Rattle.schedule_writer.specs.Write.{link_command, link_bytes, schedule_bytes, schedule_of, schedule_written};
ghost use Rattle.lists.specs.Lists.{joined};
ghost use Rattle.schedule_check.specs.Schedules.{of_lists};
ghost use Rattle.site_check.specs.Check.{written_if};

use format::{END, LINK};
use rulings::{Fault, Refusal};
use schedule_check::Schedule;
use site::Site;

#[tactic(auto, unfolding(format::specs::Bytes::bytes_of))]
fn link_command(node: u8, offset: u16, period: u16) -> [u8; 6]
    ensures { result ≡ link_command node offset period }
{
    let [offset_low, offset_high] = offset.to_le_bytes();
    let [period_low, period_high] = period.to_le_bytes();
    [LINK, node, offset_low, offset_high, period_low, period_high]
}

// All links, from the start on; answers the index after them. The index goes on by the size of a LINK, so that the test of room is made once for all.
fn put_links(links: u8, offsets: &[u16; 63], periods: &[u16; 63], out: &mut [u8]) -> usize
    requires { (links ≤ 63) × (length (joined (link_bytes (of_lists links offsets.now periods.now)) links 0) ≤ length out.old) }
    ensures { (out.new ≡ sets out.old 0 (joined (link_bytes (of_lists links offsets.now periods.now)) links 0))
        × (result ≡ length (joined (link_bytes (of_lists links offsets.now periods.now)) links 0)) }
{
    let mut at = 0;
    for i in 0..links as usize {
        let command = link_command(i as u8 + 1, offsets[i], periods[i]);
        slices::put(out, at, &command);
        at += format::schedule_size(LINK);
    }
    at
}

// The schedule with these lists, which passed the other checks.
#[tactic(auto, unfolding(format::specs::Commands::schedule_size))]
fn put_schedule(
    links: u8,
    offsets: &[u16; 63],
    periods: &[u16; 63],
    out: &mut [u8],
) -> Result<usize, Refusal>
    requires { links ≤ 63 }
    ensures { (outcome result, out.new) ≡ written (schedule_bytes (of_lists links offsets.now periods.now)) out.old }
{
    let size = format::schedule_size(LINK) * links as usize + 1;
    if out.len() < size {
        return Err(Fault::WrongLength.at(0));
    }
    let end = put_links(links, offsets, periods, out);
    out[end] = END;
    Ok(size)
}

// The writing of the schedule with these lists without check 14, which is no operation of 01: only more links than there can be get 14. On the lists of a
// site that passes it is `write_schedule`, by the law `plain_writing` of `site_check`.
#[tactic(auto, unfolding(slices::specs::Written::encoded, slices::specs::Written::handed))]
pub fn encode_lists(
    links: u8,
    offsets: &[u16; 63],
    periods: &[u16; 63],
    out: &mut [u8],
) -> Result<usize, Refusal>
    ensures { (outcome result, out.new)
        ≡ encoded links (schedule_bytes (of_lists links offsets.now periods.now)) out.old }
{
    if 63 < links {
        return Err(Fault::NoSite.at(0));
    }
    put_schedule(links, offsets, periods, out)
}

// 01: 14 of the site first, the slice last.
#[tactic(auto, using(site_check::proofs::Laws::Check::passes_few), unfolding(slices::specs::Written::encoded, slices::specs::Written::handed, crate::specs::Write::schedule_of))]
pub fn write_schedule(site: Site, out: &mut [u8]) -> Result<usize, Refusal>
    ensures { (outcome result, out.new) ≡ written_if site (schedule_bytes (schedule_of site)) out.old }
{
    if !site_check::passes(&site) {
        return Err(Fault::NoSite.at(0));
    }
    encode_lists(site.links, &site.offsets, &site.periods, out)
}

// 02, U1: a schedule by itself has a check 14 of its own. A list that has not 63 entries is no schedule's.
#[tactic(auto, unfolding(slices::specs::Written::handed, schedule_check::specs::Check::schedule_passes))]
pub fn write_lists(
    links: u8,
    offsets: &[u16],
    periods: &[u16],
    out: &mut [u8],
) -> Result<usize, Refusal>
    ensures { (outcome result, out.new) ≡ schedule_written (of_lists links offsets.now periods.now) out.old }
{
    if !schedule_check::lists_pass(links, offsets, periods) {
        return Err(Fault::NoSite.at(0));
    }
    let (Some(offsets), Some(periods)) = (offsets.as_array(), periods.as_array()) else {
        return Err(Fault::NoSite.at(0));
    };
    put_schedule(links, offsets, periods, out)
}

// The same of a schedule by value.
pub fn write_schedule_of(schedule: Schedule, out: &mut [u8]) -> Result<usize, Refusal>
    ensures { (outcome result, out.new) ≡ schedule_written schedule out.old }
{
    write_lists(schedule.links, &schedule.offsets, &schedule.periods, out)
}
