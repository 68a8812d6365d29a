// Draws the plan on standard input as a picture (SVG): whose slots they are under each parent, how full each link is, and the flows.
#![tactic(auto)]

mod flows;
mod page;
mod panels;
mod refusals;

use page::{print_head, print_tail};
use site::Site;

// A plan without links has neither slots nor flows to show.
fn print_wired() {
    print_head(684, 80);
    io::write_all(
        1,
        b"<text class=\"bold\" x=\"24\" y=\"36\" font-size=\"20\">Slot plan</text>\n\
<text id=\"wired\" x=\"24\" y=\"62\" font-size=\"13\">this plan has no links, so there are no slots and no flows</text>\n",
    );
    print_tail();
}

fn print_site(site: &Site) {
    if site.links == 0 {
        print_wired();
        return;
    }
    let flows = site.flow_count();
    let below = u64::from(chart_panels::panels_height(site));
    print_head(
        chart_panels::panels_width(site),
        below + flows::table_height(flows),
    );
    page::print_heading(u64::from(site.links), flows);
    panels::print_panels(site);
    flows::print_table(site, flows, below);
    print_tail();
}

fn print_plan(bytes: &[u8]) {
    match plan_reader::read_site(bytes) {
        Ok(site) => print_site(&site),
        Err(refusal) => refusals::print_refusal(refusal),
    }
}

// No input can pass more than 63 NODEs, 64 FLOWs and END, so its first 1,024 bytes settle every answer: this is the law `read_first` of crate `format`.
fn main(rt: HostRuntime) {
    if !arguments::stands_alone(&rt) {
        io::write_all(2, b"usage: chart < PLAN > PICTURE.svg\n");
        return;
    }
    let mut bytes = [0u8; 1024];
    let n = io::read_full(0, &mut bytes);
    print_plan(&bytes[..n]);
}
