// What live flows keep on the links of their routes, and the first link that is full. 02, U2: widths go by the periods.
#![tactic(auto)]

ghost use Rattle.std.specs.Prelude.{◌≡◌, ℕ, ◌≤◌, get_or, take, zip, position, ltb};
ghost use Rattle.lists.specs.Search.{some_of};
ghost use Rattle.tree.specs.Tree.{route};
ghost use Rattle.reservations.specs.Reservations.{loads_of, along};
ghost use Rattle.reservations.specs.Inner.{carried, first_full, ReservedAs, FaultsOf};

use bounds::first_late;
use site::Site;
use tree::{parent_of, value_of};

// Adds a flow's width on each link from its entry node up, and sums up the periods of these links on the way.
#[tactic(auto, using(reservations::proofs::Laws::Reservations::walking))]
fn add_widths(site: &Site, entry: u8, rate: u8, loads: &mut [u32; 63]) -> u32
    requires { (i : ℕ) → get_or loads.old i 0 ≤ 4000000000 }
    ensures { (result ≡ along site.now.periods (route site.now.parents entry))
        × (loads.new ≡ carried site.now.periods rate (route site.now.parents entry) loads.old) }
{
    let mut sum: u32 = 0;
    let mut node = entry;
    loop {
        let parent = parent_of(&site.parents, node);
        if node <= parent {
            return sum;
        }
        let i = (node - 1) as usize;
        let period = value_of(&site.periods, node) as u32;
        loads[i] += rate as u32 * period;
        sum += period;
        node = parent;
    }
}

// The widths on all links and the first late flow. It goes up the route of each live flow once, and ends with the last of them.
#[tactic(auto, using(reservations::proofs::Laws::Reservations::reserving))]
fn reserve(site: &Site) -> ([u32; 63], Option<usize>)
    ensures { ReservedAs site.now result.0 result.1 }
{
    let mut loads = [0; 63];
    let mut late = None;
    let mut left = site.flow_count();
    for n in 0..64 {
        if left == 0 {
            break;
        }
        if site.states[n] == 1 {
            let sum = add_widths(site, site.entries[n], site.rates[n], &mut loads);
            late = first_late(late, n, site.deadlines[n], sum);
            left -= 1;
        }
    }
    (loads, late)
}

// What each link carries: a picture shows it beside the capacity, and an admission is judged by it.
pub fn loads(site: &Site) -> [u32; 63]
    ensures { result ≡ loads_of site.now }
{
    reserve(site).0
}

// The first of so many links whose load is above its capacity.
fn first_above(links: usize, loads: &[u32; 63], capacities: &[u16; 63]) -> Option<usize>
    ensures { result ≡ position (λ x. ltb x.1 x.0) (take links (zip loads.now capacities.now)) }
{
    loads
        .iter()
        .zip(capacities)
        .take(links)
        .position(|(load, capacity)| (*capacity as u32) < *load)
}

// 01, 12: the index of the first link with widths above its capacity.
// 01, 13: the first live flow with periods on its route that sum to more than its deadline.
#[derive(Clone, Copy, PartialEq, Eq, Debug)]
pub struct Faults {
    pub over: Option<usize>,
    pub late: Option<usize>,
}

// Both of a site with its schedule, and the sums of the widths on its links. These are added up in a local list and handed over whole: of a lent one a
// compiler cannot tell that it does not overlap the others, and stores and loads each sum anew.
pub fn first_faults(site: &Site, loads: &mut [u32; 63]) -> Faults
    ensures { FaultsOf site.now result.over result.late loads.new }
{
    let (sums, late) = reserve(site);
    *loads = sums;
    Faults {
        over: first_above(site.link_count(), &sums, &site.capacities),
        late,
    }
}

// 01, 17: the first link from the entry node up that has no room for the width of this rate besides what it carries. Nothing is known of the loads that
// are lent, so the sum is made in 64 bits.
#[tactic(auto, using(reservations::proofs::Laws::Reservations::unfitting))]
pub fn first_unfit(site: &Site, loads: &[u32; 63], entry: u8, rate: u8) -> Option<u8>
    ensures { result ≡ some_of (first_full site.now.capacities loads.now site.now.periods rate (route site.now.parents entry)) }
{
    let mut link = entry;
    loop {
        let parent = parent_of(&site.parents, link);
        if link <= parent {
            return None;
        }
        let width = rate as u64 * value_of(&site.periods, link) as u64;
        let load = loads[(link - 1) as usize] as u64;
        if (value_of(&site.capacities, link) as u64) < load + width {
            return Some(link);
        }
        link = parent;
    }
}
