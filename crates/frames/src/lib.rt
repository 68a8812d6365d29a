// The frame of a parent, and which slots of it are whose or idle, as the marks of a picture.
#![tactic(auto)]

ghost use Rattle.std.specs.Prelude.{◌≡◌, ℕ, Bool};
ghost use Rattle.text.specs.Page.{Adds};
ghost use Rattle.schedule.specs.Schedule.{link_sends};
ghost use Rattle.frames.specs.Marks.{frame_of, marks, idle, idle_count};

use pinwheel::sends_in;
use site::Site;
use text::Page;
use tree::value_of;

// The frame of a parent; 0 of one without children.
#[tactic(auto, using(crate::proofs::Laws::Slots::frame_rules), unfolding(site::specs::Sites::used, crate::specs::Marks::frame_of))]
pub fn frame_under(site: &Site, parent: u8) -> u16
    ensures { result ≡ frame_of site.now parent }
{
    let mut longest = 0;
    for i in 0..site.link_count() {
        if site.parents[i] == parent {
            longest = site.periods[i].max(longest);
        }
    }
    longest
}

// The marks of the first slots that pass the test, each one slot wide.
#[tactic(auto, using(report_lines::proofs::Laws::Lines::lines), unfolding(text::specs::Put::puts, crate::specs::Marks::marks, crate::specs::Marks::mark_if, crate::specs::Marks::mark))]
fn put_marks<F: Fn(u32) -> bool>(page: &mut Page, test: F, slots: u32)
    requires { F.IsAlwaysCallable test }
    ensures { (marked : ℕ → Bool) → ((slot : ℕ) (b : Bool) → F.post test slot b → b ≡ marked slot) → Adds page.old page.new (marks marked slots) }
{
    for slot in 0..slots {
        if test(slot) {
            page.put_field(b"M", u64::from(slot));
            page.put(b" 0h1");
        }
    }
}

// The marks of a node's link in the first slots; a node without a link has none.
#[tactic(auto, using(crate::proofs::Laws::Slots::link_rules), unfolding(text::specs::Put::puts))]
pub fn put_link_marks(page: &mut Page, site: &Site, node: u8, slots: u32)
    ensures { Adds page.old page.new (marks (link_sends site.now node) slots) }
{
    if node == 0 || site.links < node {
        return;
    }
    let period = value_of(&site.periods, node);
    let offset = value_of(&site.offsets, node);
    put_marks(page, |slot| sends_in(period, offset, slot), slots);
}

#[tactic(auto, unfolding(site::specs::Sites::used, crate::specs::Marks::idle))]
fn is_idle(site: &Site, parent: u8, slot: u32) -> bool
    ensures { result ≡ idle site.now parent slot }
{
    for i in 0..site.link_count() {
        if site.parents[i] == parent && sends_in(site.periods[i], site.offsets[i], slot) {
            return false;
        }
    }
    true
}

pub fn put_idle_marks(page: &mut Page, site: &Site, parent: u8, slots: u32)
    ensures { Adds page.old page.new (marks (idle site.now parent) slots) }
{
    put_marks(page, |slot| is_idle(site, parent, slot), slots);
}

#[tactic(auto, unfolding(crate::specs::Marks::idle_count, lists::specs::Lists::sum_to))]
pub fn idle_count(site: &Site, parent: u8, slots: u32) -> u32
    ensures { result ≡ idle_count site.now parent slots }
{
    let mut count = 0;
    for slot in 0..slots {
        if is_idle(site, parent, slot) {
            count += 1;
        }
    }
    count
}
