// The periods on a route: G of a flow, and whether it is above its deadline. 02, U2: sums go by the periods.
#![tactic(auto)]

ghost use Rattle.std.specs.Prelude.{◌≡◌};
ghost use Rattle.tree.specs.Tree.{route};
ghost use Rattle.reservations.specs.Reservations.{along, delay_bound};
ghost use Rattle.reservations.specs.Inner.{found_with};

use site::Site;
use tree::{parent_of, value_of};

// The sum of the values of the links from the node up to the root.
#[tactic(auto, using(reservations::proofs::Laws::Reservations::along_up, reservations::proofs::Laws::Reservations::along_end))]
pub fn sum_along(values: &[u16], parents: &[u8], node: u8) -> u32
    ensures { result ≡ along values.now (route parents.now node) }
{
    let mut sum: u32 = 0;
    let mut n = node;
    loop {
        let parent = parent_of(parents, n);
        if n <= parent {
            return sum;
        }
        sum += value_of(values, n) as u32;
        n = parent;
    }
}

// The late flow found so far, with flow n judged by its deadline and the sum of its periods.
pub fn first_late(late: Option<usize>, n: usize, deadline: u16, sum: u32) -> Option<usize>
    ensures { result ≡ found_with late n deadline sum }
{
    if late.is_none() && (deadline as u32) < sum {
        return Some(n);
    }
    late
}

// 01: G, the sum of the periods on the flow's route; a number beyond the list is no flow's.
#[tactic(auto, using(reservations::proofs::Laws::Reservations::delay_none), unfolding(reservations::specs::Reservations::delay_bound, reservations::specs::Reservations::route_of))]
pub fn delay_bound(site: &Site, number: u8) -> u32
    ensures { result ≡ delay_bound site.now number }
{
    match site.entries.get(number as usize) {
        Some(entry) => sum_along(&site.periods, &site.parents, *entry),
        None => 0,
    }
}
