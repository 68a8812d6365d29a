// What a panel has beside its rows, put on a page.
ghost use Rattle.std.specs.Prelude.{◌≡◌, ◌≤◌, [], ◌∷◌};
ghost use Rattle.text.specs.Decimal.{decimal};
ghost use Rattle.text.specs.Letters.{letters};
ghost use Rattle.text.specs.Page.{Adds};
ghost use Rattle.chart_panels.specs.Panels.{parent_name, counted, first_only, opened, figures, title, stripes, columns, ground, edges, grid};

use chart_rows::{slot_width, spacing_of, span_of};
use frames::{frame_under, idle_count};
use site::Site;
use text::Page;

#[tactic(auto, unfolding(text::specs::Put::puts, crate::specs::Panels::parent_name))]
pub fn put_parent(page: &mut Page, parent: usize)
    ensures { Adds page.old page.new (parent_name parent) }
{
    if parent == 0 {
        page.put(b"under server (node 0)");
    } else {
        page.put_field(b"under node ", parent as u64);
    }
}

#[tactic(auto, unfolding(text::specs::Put::puts, crate::specs::Panels::counted))]
pub fn put_count(page: &mut Page, count: u64, thing: &[u8])
    ensures { Adds page.old page.new (counted count thing.now) }
{
    page.put_decimal(count);
    page.put(thing);
    if count != 1 {
        page.put(b"s");
    }
}

#[tactic(auto, unfolding(text::specs::Put::puts, crate::specs::Panels::first_only))]
fn put_first_only(page: &mut Page, frame: u16)
    ensures { Adds page.old page.new (first_only frame) }
{
    if 128 < frame {
        page.put_field(b", first 128 of ", u64::from(frame));
        page.put(b" slots shown");
    }
}

#[tactic(auto, unfolding(text::specs::Put::puts, crate::specs::Panels::opened))]
fn put_opened(page: &mut Page, parent: u8, y: u64)
    ensures { Adds page.old page.new (opened parent y) }
{
    page.put_field(b"<g id=\"node", u64::from(parent));
    page.put_field(b"\" transform=\"translate(0 ", y);
    page.put(b")\">\n<text x=\"24\" y=\"18\" font-size=\"14\"><tspan class=\"bold\">");
}

#[tactic(auto, unfolding(text::specs::Put::puts))]
fn put_base(page: &mut Page, base: u16)
    ensures { Adds page.old page.new (letters "</tspan> <tspan class=\"grey\" dx=\"8\">base " ∷ decimal base ∷ letters ", frame of " ∷ []) }
{
    page.put_field(
        b"</tspan> <tspan class=\"grey\" dx=\"8\">base ",
        u64::from(base),
    );
    page.put(b", frame of ");
}

#[tactic(auto, unfolding(text::specs::Put::puts))]
fn put_idle(page: &mut Page, idle: u32)
    ensures { Adds page.old page.new (letters ", " ∷ decimal idle ∷ letters " idle" ∷ []) }
{
    page.put_field(b", ", u64::from(idle));
    page.put(b" idle");
}

#[tactic(auto, using(text::proofs::Laws::Put::puts_append), unfolding(crate::specs::Panels::figures))]
fn put_figures(page: &mut Page, base: u16, frame: u16, idle: u32)
    ensures { Adds page.old page.new (figures base frame idle) }
{
    put_base(page, base);
    put_count(page, u64::from(frame), b" slot");
    put_idle(page, idle);
    put_first_only(page, frame);
    page.put(b"</tspan></text>\n");
}

// A parent whose children the slot rule refuses has no base, which is told as 0.
#[tactic(auto, using(text::proofs::Laws::Put::puts_append), unfolding(crate::specs::Panels::title))]
pub fn put_title(page: &mut Page, site: &Site, parent: u8, y: u64)
    ensures { Adds page.old page.new (title site.now parent y) }
{
    let base = schedule::base_under(site, parent).unwrap_or(0);
    let frame = frame_under(site, parent);
    let idle = idle_count(site, parent, u32::from(frame));
    put_opened(page, parent, y);
    put_parent(page, usize::from(parent));
    put_figures(page, base, frame, idle);
}

#[tactic(auto, unfolding(text::specs::Put::puts, crate::specs::Panels::stripes))]
pub fn put_stripes(page: &mut Page, width: u64, top: u64, rows: u32)
    ensures { Adds page.old page.new (stripes width top rows) }
{
    page.put_field(
        b"<path class=\"stripes\" stroke-dasharray=\"20\" stroke-width=\"",
        width,
    );
    page.put_field(b"\" d=\"M", 24 + width / 2);
    page.put_field(b" ", top);
    page.put_field(b"v", 20 * u64::from(rows));
    page.put(b"\"/>\n");
}

#[tactic(auto, unfolding(text::specs::Put::puts, crate::specs::Panels::columns))]
fn put_columns(page: &mut Page)
    ensures { Adds page.old page.new columns }
{
    page.put(
        b"<g class=\"grey\" font-size=\"10\"><text x=\"76\" y=\"40\">sends in slots</text><text x=\"216\" y=\"40\">load of capacity</text>",
    );
    page.put(b"<text class=\"end\" x=\"416\" y=\"40\">slot</text></g>\n");
}

#[tactic(auto, using(text::proofs::Laws::Put::puts_append), unfolding(text::specs::Put::puts, crate::specs::Panels::ground))]
pub fn put_ground(page: &mut Page, slots: u32, children: u8)
    ensures { Adds page.old page.new (ground slots children) }
{
    let wide = u64::from(span_of(slots));
    put_stripes(page, 400 + wide, 46, u32::from(children) + 1);
    put_columns(page);
}

#[tactic(auto, unfolding(text::specs::Put::puts, crate::specs::Panels::edges))]
fn put_edges(page: &mut Page, class: &[u8], apart: u32, middle: u64, height: u64, wide: u32)
    requires { 1 ≤ apart }
    ensures { Adds page.old page.new (edges class.now apart middle height wide) }
{
    page.put(b"<path class=\"");
    page.put(class);
    page.put_field(b"\" stroke-dasharray=\"1 ", u64::from(apart - 1));
    page.put_field(b"\" stroke-width=\"", height);
    page.put_field(b"\" d=\"M424 ", middle);
    page.put_field(b"h", u64::from(wide) + 1);
    page.put(b"\"/>\n");
}

// The edges are drawn over the marks of the rows, so that two marks side by side stay apart.
#[tactic(auto, using(text::proofs::Laws::Put::puts_append, chart_rows::proofs::Laws::Scale::width_some), unfolding(crate::specs::Panels::grid))]
pub fn put_grid(page: &mut Page, slots: u32, children: u8)
    ensures { Adds page.old page.new (grid slots children) }
{
    let wide = span_of(slots);
    let rows = u64::from(children);
    put_edges(
        page,
        b"edges",
        slot_width(slots),
        56 + 10 * rows,
        20 + 20 * rows,
        wide,
    );
    put_edges(
        page,
        b"ticks",
        spacing_of(slots),
        54 + 10 * rows,
        24 + 20 * rows,
        wide,
    );
}
