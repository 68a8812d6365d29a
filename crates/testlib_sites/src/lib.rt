// Sites that lines of text give and change, for the test programs.
#![tactic(auto)]

ghost use Rattle.std.specs.Prelude.{◌≡◌, ◌≤◌, ℕ, true, slice_set};
ghost use Rattle.testlib_sites.specs.Altered.{largest_of as largest·, with_entry, changed as changed·, altered_from, site_given};

use site::Site;
use testlib_text::{Change, Numbers};

// The largest value of a field's entries: links, parents, states, entry nodes and rates have 8 bits.
#[tactic(auto, using(std::proofs::lemmas::Bool::Decides::nat_tests), unfolding(crate::specs::Altered::largest_of))]
fn largest(field: usize) -> usize
    ensures { result ≡ largest· field }
{
    match field {
        0 | 1 | 6..=8 => 255,
        _ => 65535,
    }
}

// Changes the entry at an index, if there is one.
#[tactic(auto, using(crate::proofs::Laws::past_end))]
fn set<T: Copy>(list: &mut [T], index: usize, value: T)
    ensures { list.new ≡ slice_set list.old index value }
{
    if index < list.len() {
        list[index] = value;
    }
}

// The site with another entry of a field, if the field has such an entry; of links there is one number.
#[tactic(auto, using(crate::proofs::Laws::entries), unfolding(crate::specs::Altered::with_entry, crate::specs::Altered::place_of, crate::specs::Altered::largest_of))]
fn with_entry(site: Site, field: usize, index: usize, value: usize) -> Site
    requires { value ≤ largest· field }
    ensures { result ≡ with_entry site field index value }
{
    let byte = testlib_text::low8(value);
    let word = testlib_text::low16(value);
    let mut next = site;
    match field {
        0 => next.links = byte,
        1 => set(&mut next.parents, index, byte),
        2 => set(&mut next.capacities, index, word),
        3 => set(&mut next.gaps, index, word),
        4 => set(&mut next.offsets, index, word),
        5 => set(&mut next.periods, index, word),
        6 => set(&mut next.states, index, byte),
        7 => set(&mut next.entries, index, byte),
        8 => set(&mut next.rates, index, byte),
        9 => set(&mut next.deadlines, index, word),
        _ => {}
    }
    next
}

// The site with one entry changed, or as it is where the field has no such entry or the value is too large.
#[tactic(auto, using(std::proofs::lemmas::Bool::Decides::nat_tests), unfolding(crate::specs::Altered::changed))]
fn changed(site: Site, change: Change) -> Site
    ensures { (next : ℕ) → result ≡ changed· site (record { found = true; field = change.field; index = change.index; value = change.value; next = next }) }
{
    if largest(change.field) < change.value {
        return site;
    }
    with_entry(site, change.field, change.index, change.value)
}

// The site with all the changes of a line made in turn; the last one is passed over if it is not complete.
pub fn altered(site: Site, mut numbers: Numbers) -> Site
    ensures { result ≡ altered_from numbers.entry.line.now numbers.entry.at site }
{
    let mut next = site;
    while let Ok(change) = numbers.next_change() {
        next = changed(next, change);
    }
    next
}

// The site that the plan of the line reads to.
pub fn read_site(line: &[u8]) -> Site
    ensures { result ≡ site_given line.now }
{
    let mut bytes = [0; 2048];
    let n = testlib_text::parse_hex(line, &mut bytes);
    plan_reader::read_plan(&bytes[..n]).site
}
