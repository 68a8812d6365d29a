// The table of the flows.
ghost use Rattle.std.specs.Prelude.{◌<◌, ◌≤◌};

use crate::page::print_with;
use chart_panels::put_stripes;
use route_text::put_route;
use site::Site;
use text::Page;

pub(crate) fn table_height(flows: u64) -> u64
    requires { flows ≤ 64 }
    ensures { result ≤ 2000 }
{
    66 + 20 * flows
}

fn put_number(page: &mut Page, number: u8, y: u64) {
    page.put_field(b"<g id=\"flow", u64::from(number));
    page.put_field(b"\" transform=\"translate(0 ", y);
    page.put_field(b")\"><text class=\"end\" x=\"64\">", u64::from(number));
}

fn put_way(page: &mut Page, parents: &[u8], entry: u8) {
    page.put(b"</text><text x=\"88\">");
    put_route(page, parents, entry);
    page.put(b"server</text>");
}

fn put_figures(page: &mut Page, rate: u8, bound: u32, deadline: u16) {
    page.put_field(b"<text class=\"end\" x=\"440\">", u64::from(rate));
    page.put_field(b"</text><text class=\"end\" x=\"530\">", u64::from(bound));
    page.put_field(
        b"</text><text class=\"end\" x=\"650\">",
        u64::from(deadline),
    );
    page.put(b"</text>");
}

fn put_flow(page: &mut Page, site: &Site, number: u8, y: u64)
    requires { number < 64 }
{
    let n = number as usize;
    put_number(page, number, y);
    put_way(page, &site.parents, site.entries[n]);
    put_figures(
        page,
        site.rates[n],
        bounds::delay_bound(site, number),
        site.deadlines[n],
    );
    page.put(b"</g>\n");
}

fn print_flows(site: &Site) {
    let mut y = 58;
    for number in 0..64 {
        if site.is_live(number) {
            print_with(|page| put_flow(page, site, number, y));
            y += 20;
        }
    }
}

fn print_columns() {
    io::write_all(
        1,
        b"<g class=\"grey\" font-size=\"10\"><text class=\"end\" x=\"64\" y=\"40\">flow</text><text x=\"88\" y=\"40\">route</text>\
<text class=\"end\" x=\"440\" y=\"40\">rate</text><text class=\"end\" x=\"530\" y=\"40\">G in slots</text>\
<text class=\"end\" x=\"650\" y=\"40\">deadline in slots</text></g>\n",
    );
}

fn put_table(page: &mut Page, y: u64) {
    page.put_field(b"<g id=\"flows\" transform=\"translate(0 ", y);
    page.put(b")\">\n<text class=\"bold\" x=\"24\" y=\"18\" font-size=\"14\">flows</text>\n");
}

pub(crate) fn print_table(site: &Site, flows: u64, y: u64)
    requires { flows ≤ 64 }
{
    print_with(|page| put_table(page, y));
    if flows == 0 {
        io::write_all(
            1,
            b"<text class=\"grey\" x=\"24\" y=\"40\">this plan has no flows</text>\n</g>\n",
        );
        return;
    }
    print_with(|page| put_stripes(page, 636, 44, flows as u32));
    print_columns();
    print_flows(site);
    io::write_all(1, b"</g>\n");
}
