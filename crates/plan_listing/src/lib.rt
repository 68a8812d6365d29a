// A plan as lines that can be typed again.
#![tactic(auto, unfolding(text::specs::Put::puts))]

ghost use Rattle.std.specs.Prelude.{◌≡◌, ◌<◌};
ghost use Rattle.text.specs.Page.{Adds};
ghost use Rattle.plan_listing.specs.Listing.{listing_lines, listing_of, node_typed, flow_typed, flow_typed_if, site_typed};
ghost use Rattle.rulings.specs.Outcome.{outcome};
ghost use Rattle.slices.specs.Written.{written};
ghost use Rattle.plan_reader.specs.Read.{read_of};
ghost use Rattle.lists.specs.Lists.{joined};
ghost use Rattle.site.specs.Sites.{used};

use report_lines::{deliver, put_refusal_line};
use rulings::Refusal;
use site::Site;
use text::Page;

// Only an accepted plan has a listing; of any other the refusal is told.
#[tactic(auto, unfolding(text::specs::Put::puts, crate::specs::Listing::listing_lines))]
fn put_listing(page: &mut Page, bytes: &[u8])
    ensures { Adds page.old page.new (listing_lines (read_of bytes.now)) }
{
    match plan_reader::read_site(bytes) {
        Ok(site) => put_plan(page, &site),
        Err(refusal) => put_refusal_line(page, refusal.fault.number(), refusal.place),
    }
}

// No text is longer than 8,192 bytes: the law `listing_short`.
#[tactic(auto, using(report_lines::proofs::Laws::Lines::all_taken, text::proofs::Laws::Put::shown_puts, crate::proofs::Laws::Short::listing_short), unfolding(crate::specs::Listing::listing_of))]
pub fn list_plan(bytes: &[u8], out: &mut [u8]) -> Result<usize, Refusal>
    ensures { (outcome result, out.new) ≡ written (listing_of bytes.now) out.old }
{
    let mut lines = [0u8; 8192];
    let mut page = Page::over(&mut lines);
    put_listing(&mut page, bytes);
    let text = page.text();
    deliver(text, text.len(), out)
}

#[tactic(auto, unfolding(text::specs::Put::puts, crate::specs::Listing::node_typed))]
fn put_node(page: &mut Page, site: &Site, i: usize)
    requires { i < 63 }
    ensures { Adds page.old page.new (node_typed site.now i) }
{
    page.put_field(b"node ", u64::from(site.parents[i]));
    page.put_field(b" ", u64::from(site.capacities[i]));
    page.put_field(b" ", u64::from(site.gaps[i]));
    page.put(b"\n");
}

#[tactic(auto, using(report_lines::proofs::Laws::Lines::lines), unfolding(text::specs::Put::puts, site::specs::Sites::used))]
fn put_nodes(page: &mut Page, site: &Site)
    ensures { Adds page.old page.new (joined (node_typed site.now) (used site.now.links) 0) }
{
    for i in 0..site.link_count() {
        put_node(page, site, i);
    }
}

#[tactic(auto, unfolding(text::specs::Put::puts, crate::specs::Listing::flow_typed))]
fn put_flow(page: &mut Page, site: &Site, number: u8)
    requires { number < 64 }
    ensures { Adds page.old page.new (flow_typed site.now number) }
{
    let n = number as usize;
    page.put_field(b"flow ", u64::from(number));
    page.put_field(b" ", u64::from(site.entries[n]));
    page.put_field(b" ", u64::from(site.rates[n]));
    page.put_field(b" ", u64::from(site.deadlines[n]));
    page.put(b"\n");
}

#[tactic(auto, using(report_lines::proofs::Laws::Lines::lines), unfolding(text::specs::Put::puts, crate::specs::Listing::flow_typed_if))]
fn put_flows(page: &mut Page, site: &Site)
    ensures { Adds page.old page.new (joined (flow_typed_if site.now) 64 0) }
{
    for number in 0..64 {
        if site.is_live(number) {
            put_flow(page, site, number);
        }
    }
}

#[tactic(auto, using(text::proofs::Laws::Put::puts_append), unfolding(text::specs::Put::puts, crate::specs::Listing::site_typed))]
pub fn put_plan(page: &mut Page, site: &Site)
    ensures { Adds page.old page.new (site_typed site.now) }
{
    put_nodes(page, site);
    put_flows(page, site);
}
