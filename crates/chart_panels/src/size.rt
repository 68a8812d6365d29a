// How many rows a panel has, and how much room the panels take.
ghost use Rattle.std.specs.Prelude.{◌≡◌};
ghost use Rattle.chart_panels.specs.Size.{child_count, height_for, width_for, panels_height, panels_width};

use frames::frame_under;
use site::Site;

#[tactic(auto, unfolding(crate::specs::Size::child_count, lists::specs::Lists::sum_to, site::specs::Sites::used))]
pub fn child_count(site: &Site, parent: u8) -> u8
    ensures { result ≡ child_count site.now parent }
{
    let mut count = 0;
    for i in 0..site.link_count() {
        if site.parents[i] == parent {
            count += 1;
        }
    }
    count
}

// Counts and heights are narrow, so that no sum of them can be too large.
#[tactic(auto, unfolding(crate::specs::Size::height_for))]
pub fn panel_height(children: u8) -> u16
    ensures { result ≡ height_for children }
{
    match children {
        0 => 0,
        1..=12 => 100 + 20 * u16::from(children),
        _ => 116 + 20 * u16::from(children),
    }
}

#[tactic(auto, unfolding(crate::specs::Size::width_for))]
fn panel_width(children: u8, slots: u32) -> u64
    ensures { result ≡ width_for children slots }
{
    if children == 0 {
        return 0;
    }
    448 + u64::from(chart_rows::span_of(slots))
}

#[tactic(auto, unfolding(crate::specs::Size::panels_height, crate::specs::Size::height_to, site::specs::Sites::used))]
pub fn panels_height(site: &Site) -> u32
    ensures { result ≡ panels_height site.now }
{
    let mut height = 84;
    for parent in 0..=site.link_count() {
        height += u32::from(panel_height(child_count(site, parent as u8)));
    }
    height
}

#[tactic(auto, unfolding(crate::specs::Size::panels_width, crate::specs::Size::width_to, site::specs::Sites::used))]
pub fn panels_width(site: &Site) -> u64
    ensures { result ≡ panels_width site.now }
{
    let mut width: u64 = 684;
    for parent in 0..=site.link_count() {
        let node = parent as u8;
        let slots = u32::from(frame_under(site, node));
        width = width.max(panel_width(child_count(site, node), slots));
    }
    width
}
