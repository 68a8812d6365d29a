// What is shown of a site and its counters while calls are made on them.
#![tactic(auto, unfolding(text::specs::Put::puts))]

ghost use Rattle.text.specs.Page.{Adds};
ghost use Rattle.rulings.specs.Outcome.{outcome};
ghost use Rattle.call_answers.specs.Answers.{lookup_text, cells_text, bound_text, plan_text, schedule_shown};
ghost use Rattle.call_answers.specs.Inner.{front_text, written_shown};

use report_lines::put_refusal;
use rulings::Refusal;
use site::Site;
use text::Page;

#[tactic(auto, unfolding(text::specs::Put::puts, crate::specs::Answers::lookup_text))]
pub fn put_lookup(page: &mut Page, found: Result<u8, Refusal>)
    ensures { Adds page.old page.new (lookup_text (outcome found)) }
{
    match found {
        Ok(child) => page.put_field(b"sender ", u64::from(child)),
        Err(refusal) => put_refusal(page, refusal.fault.number(), refusal.place),
    }
}

// A flow number has nine cells: eight queues, then the delivered count. Counters that are too few for them show none.
#[tactic(auto, unfolding(text::specs::Put::puts, crate::specs::Answers::cells_text))]
pub fn put_cells(page: &mut Page, counters: &[u32], number: u8)
    ensures { Adds page.old page.new (cells_text counters.now number) }
{
    let start = 9 * number as usize;
    page.put(b"cells");
    if let Some(cells) = counters.get(start..start + 9) {
        page.put_numbers(cells);
    }
}

// A number that is not live has no route, and so no bound.
#[tactic(auto, using(crate::proofs::Laws::live_below), unfolding(text::specs::Put::puts, crate::specs::Answers::bound_text))]
pub fn put_bound(page: &mut Page, site: &Site, number: u8)
    ensures { Adds page.old page.new (bound_text site.now number) }
{
    if !site.is_live(number) {
        page.put(b"not live");
        return;
    }
    let bound = bounds::delay_bound(site, number);
    let deadline = site.deadlines[number as usize];
    page.put_field(b"bound ", u64::from(bound));
    page.put_field(b" deadline ", u64::from(deadline));
}

// No writer answers more bytes than its slice has: for such an n nothing is shown, so that callers have nothing to show first.
#[tactic(auto, unfolding(text::specs::Put::puts, crate::specs::Inner::front_text))]
fn put_front(page: &mut Page, bytes: &[u8], n: usize)
    ensures { Adds page.old page.new (front_text n bytes.now) }
{
    if let Some(front) = bytes.get(..n) {
        hexadecimal::put_bytes(page, front);
    }
}

// The bytes that a writer put at the front of a slice, or its refusal.
#[tactic(auto, unfolding(text::specs::Put::puts, crate::specs::Inner::written_shown))]
fn put_written(page: &mut Page, written: Result<usize, Refusal>, bytes: &[u8])
    ensures { Adds page.old page.new (written_shown (outcome written) bytes.now) }
{
    match written {
        Ok(n) => put_front(page, bytes, n),
        Err(refusal) => put_refusal(page, refusal.fault.number(), refusal.place),
    }
}

// The plan bytes of the site: 63 NODEs, 64 FLOWs and END take 763.
pub fn put_plan(page: &mut Page, site: &Site)
    ensures { Adds page.old page.new (plan_text site.now) }
{
    let mut bytes = [0u8; 763];
    let written = plan_writer::write_plan(*site, &mut bytes);
    put_written(page, written, &bytes);
}

// The schedule bytes of the site: 63 LINKs and END take 379.
pub fn put_schedule(page: &mut Page, site: &Site)
    ensures { Adds page.old page.new (schedule_shown site.now) }
{
    let mut bytes = [0u8; 379];
    let written = schedule_writer::write_schedule(*site, &mut bytes);
    put_written(page, written, &bytes);
}
