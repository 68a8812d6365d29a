// A panel for each parent with children: its frame, slot by slot.
ghost use Rattle.std.specs.Prelude.{◌+◌, ◌≤◌};

use crate::page::print_with;
use chart_rows::{put_axis, put_idle, put_link};
use site::Site;

#[tactic(auto, unfolding(site::specs::Sites::used))]
fn print_links(site: &Site, parent: u8, loads: &[u32; 63], slots: u32) {
    let mut y = 46;
    for i in 0..site.link_count() {
        if site.parents[i] == parent {
            let node = i as u8 + 1;
            let load = loads[i];
            print_with(|page| put_link(page, site, node, y, load, slots));
            y += 20;
        }
    }
}

// The rows of a parent with so many children. The edges of the slots are drawn over the marks, so that two marks side by side stay apart; the numbers of the
// slots stand again below the rows where these are many.
fn print_rows(site: &Site, parent: u8, loads: &[u32; 63], children: u8, slots: u32) {
    let low = 20 * u64::from(children);
    print_with(|page| chart_panels::put_ground(page, slots, children));
    print_links(site, parent, loads, slots);
    print_with(|page| put_idle(page, site, parent, 46 + low, slots));
    print_with(|page| chart_panels::put_grid(page, slots, children));
    print_with(|page| put_axis(page, 40, slots));
    if 12 < children {
        print_with(|page| put_axis(page, 78 + low, slots));
    }
}

// The panel of a parent at this height, if it has children; answers where the next one begins.
fn print_panel(site: &Site, parent: u8, loads: &[u32; 63], y: u64) -> u64
    requires { y ≤ 10000000 }
    ensures { result ≤ y + 65535 }
{
    let children = chart_panels::child_count(site, parent);
    if children == 0 {
        return y;
    }
    let slots = u32::from(frames::frame_under(site, parent));
    print_with(|page| chart_panels::put_title(page, site, parent, y));
    print_rows(site, parent, loads, children, slots);
    io::write_all(1, b"</g>\n");
    y + u64::from(chart_panels::panel_height(children))
}

#[tactic(auto, unfolding(site::specs::Sites::used))]
pub(crate) fn print_panels(site: &Site) {
    let loads = link_loads::loads(site);
    let mut y = 84;
    for parent in 0..=site.link_count() {
        y = print_panel(site, parent as u8, &loads, y);
    }
}
