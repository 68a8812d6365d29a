// The rows, put on a page.
ghost use Rattle.std.specs.Prelude.{◌≡◌, ◌≤◌, [], ◌∷◌};
ghost use Rattle.lists.specs.Lists.{joined};
ghost use Rattle.text.specs.Decimal.{decimal};
ghost use Rattle.text.specs.Letters.{letters};
ghost use Rattle.text.specs.Page.{Adds};
ghost use Rattle.chart_rows.specs.Scale.{slots_shown, middle};
ghost use Rattle.chart_rows.specs.Rows.{number, number_if, axis, bar_filled as filled·, bar, fill, load_text, row_slots, name, path, link_row, idle_name, idle_row};

use crate::scale::{number_step, shown_of, slot_width};
use frames::{put_idle_marks, put_link_marks};
use site::Site;
use text::Page;
use tree::value_of;

#[tactic(auto, unfolding(text::specs::Put::puts, crate::specs::Rows::number))]
fn put_number(page: &mut Page, x: u64, y: u64, slot: u32)
    ensures { Adds page.old page.new (number x y slot) }
{
    page.put_field(b"<text x=\"", x);
    page.put_field(b"\" y=\"", y);
    page.put_field(b"\">", u64::from(slot));
    page.put(b"</text>");
}

#[tactic(auto, using(crate::proofs::Laws::Scale::place_most), unfolding(crate::specs::Scale::middle))]
fn middle_of(width: u32, slot: u32) -> u64
    requires { width ≤ 28 }
    ensures { result ≡ middle width slot }
{
    424 + u64::from(width) / 2 + u64::from(width) * u64::from(slot)
}

#[tactic(auto, using(report_lines::proofs::Laws::Lines::lines, crate::proofs::Laws::Rows::number_here, crate::proofs::Laws::Rows::number_none, crate::proofs::Laws::Scale::scale_rules), unfolding(text::specs::Put::puts))]
fn put_numbers(page: &mut Page, y: u64, slots: u32)
    ensures { Adds page.old page.new (joined (number_if slots y) (slots_shown slots) 0) }
{
    let width = slot_width(slots);
    let step = number_step(slots);
    for slot in 0..shown_of(slots) {
        if slot % step == 0 {
            put_number(page, middle_of(width, slot), y, slot);
        }
    }
}

#[tactic(auto, using(text::proofs::Laws::Put::puts_append), unfolding(text::specs::Put::puts, crate::specs::Rows::axis))]
pub fn put_axis(page: &mut Page, y: u64, slots: u32)
    ensures { Adds page.old page.new (axis y slots) }
{
    page.put(b"<g class=\"numbers\">");
    put_numbers(page, y, slots);
    page.put(b"</g>\n");
}

// A link without capacity counts as full, and any load shows one pixel at least.
#[tactic(auto, using(crate::proofs::Laws::Rows::filled_rules))]
fn filled(load: u32, capacity: u16) -> u64
    ensures { result ≡ filled· load capacity }
{
    let load = u64::from(load);
    match (80 * load).checked_div(u64::from(capacity)) {
        Some(pixels) => pixels.max(load.min(1)).min(80),
        None => 80,
    }
}

#[tactic(auto, unfolding(text::specs::Put::puts, crate::specs::Rows::bar))]
fn put_bar(page: &mut Page, class: &[u8], pixels: u64)
    ensures { Adds page.old page.new (bar class.now pixels) }
{
    page.put(b"<rect class=\"");
    page.put(class);
    page.put_field(b"\" x=\"216\" y=\"6\" width=\"", pixels);
    page.put(b"\" height=\"9\"/>");
}

#[tactic(auto, unfolding(crate::specs::Rows::fill))]
fn put_fill(page: &mut Page, load: u32, capacity: u16)
    ensures { Adds page.old page.new (fill load capacity) }
{
    let pixels = filled(load, capacity);
    if 9 * u64::from(capacity) <= 10 * u64::from(load) {
        put_bar(page, b"full", pixels);
    } else {
        put_bar(page, b"load", pixels);
    }
}

#[tactic(auto, unfolding(text::specs::Put::puts))]
fn put_figures(page: &mut Page, load: u32, capacity: u16)
    ensures { Adds page.old page.new (letters "<text class=\"end\" x=\"404\" y=\"14\">" ∷ decimal load ∷ letters " of " ∷ decimal capacity ∷ letters "</text>\n" ∷ []) }
{
    page.put_field(b"<text class=\"end\" x=\"404\" y=\"14\">", u64::from(load));
    page.put_field(b" of ", u64::from(capacity));
    page.put(b"</text>\n");
}

#[tactic(auto, using(text::proofs::Laws::Put::puts_append), unfolding(text::specs::Put::puts, crate::specs::Rows::load_text))]
fn put_load(page: &mut Page, load: u32, capacity: u16)
    ensures { Adds page.old page.new (load_text load capacity) }
{
    put_bar(page, b"room", 80);
    put_fill(page, load, capacity);
    put_figures(page, load, capacity);
}

#[tactic(auto, unfolding(text::specs::Put::puts, crate::specs::Rows::row_slots))]
fn put_slots(page: &mut Page, offset: u16, period: u16)
    ensures { Adds page.old page.new (row_slots offset period) }
{
    page.put_field(
        b"<text class=\"grey\" x=\"76\" y=\"14\" font-size=\"11\">from ",
        u64::from(offset),
    );
    page.put_field(b" every ", u64::from(period));
    page.put(b"</text>\n");
}

#[tactic(auto, unfolding(text::specs::Put::puts, crate::specs::Rows::name))]
fn put_name(page: &mut Page, node: u8, y: u64)
    ensures { Adds page.old page.new (name node y) }
{
    page.put_field(b"<g id=\"link", u64::from(node));
    page.put_field(b"\" transform=\"translate(0 ", y);
    page.put_field(b")\"><text x=\"24\" y=\"14\">link ", u64::from(node));
    page.put(b"</text>");
}

#[tactic(auto, unfolding(text::specs::Put::puts, crate::specs::Rows::path))]
fn put_path(page: &mut Page, class: &[u8], width: u32)
    ensures { Adds page.old page.new (path class.now width) }
{
    page.put(b"<path class=\"");
    page.put(class);
    page.put_field(b"\" transform=\"translate(424 10) scale(", u64::from(width));
    page.put(b" 12)\" d=\"");
}

// The load is handed over, since one walk over the flows gives those of all links.
#[tactic(auto, using(text::proofs::Laws::Put::puts_append), unfolding(text::specs::Put::puts, crate::specs::Rows::link_row, crate::specs::Rows::row_end))]
pub fn put_link(page: &mut Page, site: &Site, node: u8, y: u64, load: u32, slots: u32)
    ensures { Adds page.old page.new (link_row site.now node y load slots) }
{
    put_name(page, node, y);
    put_slots(
        page,
        value_of(&site.offsets, node),
        value_of(&site.periods, node),
    );
    put_load(page, load, value_of(&site.capacities, node));
    put_path(page, b"sends", slot_width(slots));
    put_link_marks(page, site, node, shown_of(slots));
    page.put(b"\"/></g>\n");
}

#[tactic(auto, unfolding(text::specs::Put::puts, crate::specs::Rows::idle_name))]
fn put_idle_name(page: &mut Page, parent: u8, y: u64)
    ensures { Adds page.old page.new (idle_name parent y) }
{
    page.put_field(b"<g id=\"idle", u64::from(parent));
    page.put_field(b"\" class=\"grey\" transform=\"translate(0 ", y);
    page.put(b")\"><text x=\"24\" y=\"14\">idle</text>\n");
}

#[tactic(auto, using(text::proofs::Laws::Put::puts_append), unfolding(text::specs::Put::puts, crate::specs::Rows::idle_row, crate::specs::Rows::row_end))]
pub fn put_idle(page: &mut Page, site: &Site, parent: u8, y: u64, slots: u32)
    ensures { Adds page.old page.new (idle_row site.now parent y slots) }
{
    put_idle_name(page, parent, y);
    put_path(page, b"idle", slot_width(slots));
    put_idle_marks(page, site, parent, shown_of(slots));
    page.put(b"\"/></g>\n");
}
