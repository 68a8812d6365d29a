// Checks 19 and 20: what a slot's arrivals are judged by.
#![tactic(auto)]

ghost use Rattle.std.specs.Prelude.{◌≤◌, ◌≡◌, length};
ghost use Rattle.lists.specs.Lists.{total};
ghost use Rattle.lists.specs.Search.{some_below};
ghost use Rattle.slot_checks.specs.Checks.{first_overflow, first_unexpected, advance_ruling};
ghost use Rattle.rulings.specs.Outcome.{outcome};

use rulings::{Fault, Verdict};
use site::Site;

// At 64 bits nine cells and an arrival can be summed.
fn sum(cells: &[u32]) -> u64
    requires { length cells.now ≤ 9 }
    ensures { (result ≡ total cells.now) × (result ≤ 38654705655) }
{
    cells.iter().map(|cell| u64::from(*cell)).sum()
}

// 01, 19: the lowest live number whose nine cells and arrival sum to more than 32 bits can hold. It ends with the last live flow.
#[tactic(auto, using(crate::proofs::Laws::Answers::overflow_rules), unfolding(crate::specs::Checks::overflows, site::specs::Sites::live, counters::specs::Blocks::cells_of))]
fn first_overflow(site: &Site, counters: &[u32], arrivals: &[u16]) -> Option<usize>
    requires { (length counters.now ≡ 576) × (length arrivals.now ≡ 64) }
    ensures { result ≡ some_below 64 (first_overflow site.now counters.now arrivals.now) }
{
    let mut left = site.flow_count();
    for n in 0..64 {
        if left == 0 {
            break;
        }
        if site.states[n] == 1 {
            let at = 9 * n;
            let end = at + 9;
            if u64::from(u32::MAX) < sum(&counters[at..end]) + u64::from(arrivals[n]) {
                return Some(n);
            }
            left -= 1;
        }
    }
    None
}

// 01, 20: the lowest number that is not live and has arrivals.
#[tactic(auto, using(crate::proofs::Laws::Answers::unexpected_rules), unfolding(crate::specs::Checks::unexpected, site::specs::Sites::live))]
fn first_unexpected(site: &Site, arrivals: &[u16]) -> Option<usize>
    requires { length arrivals.now ≡ 64 }
    ensures { result ≡ some_below 64 (first_unexpected site.now arrivals.now) }
{
    for n in 0..64 {
        if site.states[n] != 1 && 0 < arrivals[n] {
            return Some(n);
        }
    }
    None
}

// The checks of a slot besides 14, in their order: 1, 19, 20.
#[tactic(auto, using(crate::proofs::Laws::Answers::arrivals_rules), unfolding(crate::specs::Checks::advance_ruling, crate::specs::Checks::arrivals_ruling))]
pub fn judge_arrivals(site: &Site, counters: &[u32], arrivals: &[u16]) -> Verdict
    ensures { outcome result ≡ advance_ruling site.now counters.now arrivals.now }
{
    if arrivals.len() != 64 || counters.len() != 576 {
        return Err(Fault::WrongLength.at(0));
    }
    if let Some(over) = first_overflow(site, counters, arrivals) {
        return Err(Fault::TooManyPackets.at(over));
    }
    if let Some(stray) = first_unexpected(site, arrivals) {
        return Err(Fault::StrayArrivals.at(stray));
    }
    Ok(())
}
