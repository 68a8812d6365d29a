// What `slotplan` prints of plan bytes: the lines of a site's links and live flows and their numbers.
#![tactic(auto, unfolding(text::specs::Put::puts))]

ghost use Rattle.std.specs.Prelude.{◌≡◌, ◌<◌};
ghost use Rattle.text.specs.Page.{Adds};
ghost use Rattle.site_report.specs.Report.{site_lines, report_lines, report_of, link_line, flow_line, flow_line_if, counts_line};
ghost use Rattle.rulings.specs.Outcome.{outcome};
ghost use Rattle.slices.specs.Written.{written};
ghost use Rattle.plan_reader.specs.Read.{read_of};
ghost use Rattle.lists.specs.Lists.{joined};
ghost use Rattle.site.specs.Sites.{used};

use report_lines::{deliver, put_refusal_line, put_slots};
use rulings::Refusal;
use site::Site;
use text::Page;

#[tactic(auto, using(text::proofs::Laws::Put::puts_append), unfolding(text::specs::Put::puts, crate::specs::Report::site_lines))]
pub fn put_site(page: &mut Page, site: &Site)
    ensures { Adds page.old page.new (site_lines site.now) }
{
    put_links(page, site);
    put_flows(page, site);
    put_counts(page, site);
}

// 01, Marked plans: the lines of an accepted plan, or the one line of a refusal.
#[tactic(auto, unfolding(text::specs::Put::puts, crate::specs::Report::report_lines))]
fn put_report(page: &mut Page, bytes: &[u8])
    ensures { Adds page.old page.new (report_lines (read_of bytes.now)) }
{
    match plan_reader::read_site(bytes) {
        Ok(site) => put_site(page, &site),
        Err(refusal) => put_refusal_line(page, refusal.fault.number(), refusal.place),
    }
}

// No text is longer than 8,192 bytes: the law `report_short`.
#[tactic(auto, using(report_lines::proofs::Laws::Lines::all_taken, text::proofs::Laws::Put::shown_puts, crate::proofs::Laws::Short::report_short), unfolding(crate::specs::Report::report_of))]
pub fn report(bytes: &[u8], out: &mut [u8]) -> Result<usize, Refusal>
    ensures { (outcome result, out.new) ≡ written (report_of bytes.now) out.old }
{
    let mut lines = [0u8; 8192];
    let mut page = Page::over(&mut lines);
    put_report(&mut page, bytes);
    let text = page.text();
    deliver(text, text.len(), out)
}

#[tactic(auto, unfolding(text::specs::Put::puts, crate::specs::Report::link_line))]
fn put_link(page: &mut Page, site: &Site, i: usize)
    requires { i < 63 }
    ensures { Adds page.old page.new (link_line site.now i) }
{
    let parent = site.parents[i];
    let base = schedule::base_under(site, parent).unwrap_or(0);
    page.put_field(b"link ", i as u64 + 1);
    page.put_field(b" parent ", u64::from(parent));
    page.put_field(b" base ", u64::from(base));
    put_slots(page, site.offsets[i], site.periods[i]);
}

#[tactic(auto, using(report_lines::proofs::Laws::Lines::lines), unfolding(text::specs::Put::puts, site::specs::Sites::used))]
fn put_links(page: &mut Page, site: &Site)
    ensures { Adds page.old page.new (joined (link_line site.now) (used site.now.links) 0) }
{
    for i in 0..site.link_count() {
        put_link(page, site, i);
    }
}

#[tactic(auto, unfolding(text::specs::Put::puts, crate::specs::Report::flow_line))]
fn put_flow(page: &mut Page, site: &Site, number: u8)
    requires { number < 64 }
    ensures { Adds page.old page.new (flow_line site.now number) }
{
    let n = number as usize;
    page.put_field(b"flow ", u64::from(number));
    page.put_field(b" node ", u64::from(site.entries[n]));
    page.put_field(b" rate ", u64::from(site.rates[n]));
    page.put_field(b" deadline ", u64::from(site.deadlines[n]));
    page.put_field(b" bound ", u64::from(bounds::delay_bound(site, number)));
    page.put(b"\n");
}

#[tactic(auto, using(report_lines::proofs::Laws::Lines::lines), unfolding(text::specs::Put::puts, crate::specs::Report::flow_line_if))]
fn put_flows(page: &mut Page, site: &Site)
    ensures { Adds page.old page.new (joined (flow_line_if site.now) 64 0) }
{
    for number in 0..64 {
        if site.is_live(number) {
            put_flow(page, site, number);
        }
    }
}

// 01: the last line counts links and flows.
#[tactic(auto, unfolding(text::specs::Put::puts, crate::specs::Report::counts_line))]
pub fn put_counts(page: &mut Page, site: &Site)
    ensures { Adds page.old page.new (counts_line site.now) }
{
    page.put_field(b"accepted links ", u64::from(site.links));
    page.put_field(b" flows ", site.flow_count());
    page.put(b"\n");
}
