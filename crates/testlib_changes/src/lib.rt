// What a call changed in a site and its counters, for the test programs.
#![tactic(auto, unfolding(text::specs::Put::puts, text::specs::Listed::spaced_decimal))]

ghost use Rattle.std.specs.Prelude.{◌≡◌, [], ◌++◌, cond, eqb, slice_index_or};
ghost use Rattle.text.specs.Page.{Adds};
ghost use Rattle.text.specs.Listed.{spaced_decimal};
ghost use Rattle.testlib_changes.specs.Changed.{entry_of, entry_text, field_text, site_text, counters_text};

use site::Site;
use text::Page;

// The entry at an index, `none` past the list.
fn entry_at<T: Copy>(list: &[T], index: usize, none: T) -> T
    ensures { result ≡ slice_index_or list.now index none }
{
    list.get(index).copied().unwrap_or(none)
}

// The value of a field's entry, by the numbers that `altered` takes, and 0 where there is no such entry.
#[tactic(auto, unfolding(crate::specs::Changed::entry_of))]
fn entry(site: &Site, field: usize, index: usize) -> u64
    ensures { result ≡ entry_of site.now field index }
{
    match field {
        0 => u64::from(entry_at(&[site.links], index, 0)),
        1 => u64::from(entry_at(&site.parents, index, 0)),
        2 => u64::from(entry_at(&site.capacities, index, 0)),
        3 => u64::from(entry_at(&site.gaps, index, 0)),
        4 => u64::from(entry_at(&site.offsets, index, 0)),
        5 => u64::from(entry_at(&site.periods, index, 0)),
        6 => u64::from(entry_at(&site.states, index, 0)),
        7 => u64::from(entry_at(&site.entries, index, 0)),
        8 => u64::from(entry_at(&site.rates, index, 0)),
        9 => u64::from(entry_at(&site.deadlines, index, 0)),
        _ => 0,
    }
}

// The entry of a field, if it is another.
#[tactic(auto, unfolding(text::specs::Put::puts, text::specs::Listed::spaced_decimal, crate::specs::Changed::entry_text))]
fn put_entry(page: &mut Page, before: &Site, after: &Site, field: usize, index: usize)
    ensures { Adds page.old page.new (entry_text before.now after.now field index) }
{
    let value = entry(after, field, index);
    if entry(before, field, index) != value {
        page.put_field(b" ", field as u64);
        page.put_field(b" ", index as u64);
        page.put_field(b" ", value);
    }
}

// The entries of a field that differ.
#[tactic(auto, using(crate::proofs::Laws::put_each), unfolding(text::specs::Put::puts, crate::specs::Changed::field_text))]
fn put_entries(page: &mut Page, before: &Site, after: &Site, field: usize)
    ensures { Adds page.old page.new (field_text before.now after.now field) }
{
    for index in 0..64 {
        put_entry(page, before, after, field, index);
    }
}

// The entries of the site that differ.
#[tactic(auto, using(crate::proofs::Laws::put_each), unfolding(text::specs::Put::puts, crate::specs::Changed::site_text))]
pub fn put_site(page: &mut Page, before: &Site, after: &Site)
    ensures { Adds page.old page.new (site_text before.now after.now) }
{
    page.put(b" site");
    for field in 0..10 {
        put_entries(page, before, after, field);
    }
}

// The index and the new value of a counter, if it is another.
fn put_counter(page: &mut Page, before: u32, after: u32, index: usize)
    ensures { Adds page.old page.new (cond (eqb before after) [] (spaced_decimal index ++ spaced_decimal after)) }
{
    if before != after {
        page.put_field(b" ", index as u64);
        page.put_field(b" ", u64::from(after));
    }
}

// The counters that differ.
#[tactic(auto, using(crate::proofs::Laws::put_each), unfolding(text::specs::Put::puts, crate::specs::Changed::counters_text, crate::specs::Changed::counter_text))]
pub fn put_counters(page: &mut Page, before: &[u32; 577], after: &[u32; 577])
    ensures { Adds page.old page.new (counters_text before.now after.now) }
{
    page.put(b" counters");
    for index in 0..577 {
        put_counter(page, before[index], after[index], index);
    }
}
