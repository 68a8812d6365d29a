// What `readschedule` prints of schedule bytes.
#![tactic(auto, unfolding(text::specs::Put::puts))]

ghost use Rattle.std.specs.Prelude.{◌≡◌, ◌<◌, [], ◌∷◌};
ghost use Rattle.text.specs.Page.{Adds};
ghost use Rattle.schedule_report.specs.Report.{schedule_lines, schedule_report_of, slots_line, schedule_text};
ghost use Rattle.rulings.specs.Outcome.{outcome};
ghost use Rattle.slices.specs.Written.{written};
ghost use Rattle.text.specs.Letters.{letters};
ghost use Rattle.text.specs.Decimal.{decimal};
ghost use Rattle.schedule_reader.specs.Read.{schedule_read};
ghost use Rattle.lists.specs.Lists.{joined};
ghost use Rattle.site.specs.Sites.{used};

use report_lines::{deliver, put_refusal_line, put_slots};
use rulings::Refusal;
use schedule_check::Schedule;
use text::Page;

// The lines of an accepted schedule, or the one line of a refusal.
fn put_report(page: &mut Page, bytes: &[u8])
    ensures { Adds page.old page.new (schedule_lines (schedule_read bytes.now)) }
{
    let read = schedule_reader::read_schedule(bytes);
    match read.verdict {
        Ok(()) => put_schedule(page, &read.schedule),
        Err(refusal) => put_refusal_line(page, refusal.fault.number(), refusal.place),
    }
}

// No text is longer than 8,192 bytes: the law `schedule_report_short`.
#[tactic(auto, using(report_lines::proofs::Laws::Lines::all_taken, text::proofs::Laws::Put::shown_puts, crate::proofs::Laws::Short::schedule_report_short), unfolding(crate::specs::Report::schedule_report_of))]
pub fn report_schedule(bytes: &[u8], out: &mut [u8]) -> Result<usize, Refusal>
    ensures { (outcome result, out.new) ≡ written (schedule_report_of bytes.now) out.old }
{
    let mut lines = [0u8; 8192];
    let mut page = Page::over(&mut lines);
    put_report(&mut page, bytes);
    let text = page.text();
    deliver(text, text.len(), out)
}

#[tactic(auto, unfolding(text::specs::Put::puts, crate::specs::Report::slots_line))]
fn put_link(page: &mut Page, schedule: &Schedule, i: usize)
    requires { i < 63 }
    ensures { Adds page.old page.new (slots_line schedule.now i) }
{
    page.put_field(b"link ", i as u64 + 1);
    put_slots(page, schedule.offsets[i], schedule.periods[i]);
}

#[tactic(auto, using(report_lines::proofs::Laws::Lines::lines), unfolding(text::specs::Put::puts, site::specs::Sites::used))]
fn put_links(page: &mut Page, schedule: &Schedule)
    ensures { Adds page.old page.new (joined (slots_line schedule.now) (used schedule.now.links) 0) }
{
    for i in 0..schedule.links.min(63) as usize {
        put_link(page, schedule, i);
    }
}

// 02: the last line counts the links.
fn put_count(page: &mut Page, links: u8)
    ensures { Adds page.old page.new (letters "accepted links " ∷ decimal links ∷ letters "\n" ∷ []) }
{
    page.put_field(b"accepted links ", u64::from(links));
    page.put(b"\n");
}

#[tactic(auto, using(text::proofs::Laws::Put::puts_append), unfolding(text::specs::Put::puts, crate::specs::Report::schedule_text))]
fn put_schedule(page: &mut Page, schedule: &Schedule)
    ensures { Adds page.old page.new (schedule_text schedule.now) }
{
    put_links(page, schedule);
    put_count(page, schedule.links);
}
