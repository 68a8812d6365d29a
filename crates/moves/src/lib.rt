// What the links of a site move in one slot.
#![tactic(auto)]

ghost use Rattle.std.specs.Prelude.{◌≡◌, ◌<◌, get_or};
ghost use Rattle.rulings.specs.Outcome.{outcome};
ghost use Rattle.lists.specs.Lists.{joined};
ghost use Rattle.queues.specs.Cells.{step};
ghost use Rattle.moves.specs.Hops.{own};
ghost use Rattle.moves.specs.Moves.{advance_of, cells_after};
ghost use Rattle.moves.specs.Inner.{PeriodsIn, hops_in, Movable, AllMovable};

use pinwheel::sends_in;
use rulings::Verdict;
use site::Site;
use slot_checks::judge_arrivals;

// One slot on a site whose check 14 is not asked: arrivals join, and every sending link moves what it may of each live flow. It is no operation of 01. For a
// caller who knows that the site passes, as one that was just read does, it is `slot` of crate `simulation`: the law `slot_advances` there.
#[tactic(auto, using(crate::proofs::Laws::advance_rules), unfolding(crate::specs::Moves::advance_of))]
pub fn advance(site: &Site, counters: &mut [u32], arrivals: &[u16], number: u32) -> Verdict
    ensures { (outcome result, counters.new) ≡ advance_of own site.now counters.old arrivals.now number }
{
    judge_arrivals(site, counters, arrivals)?;
    move_all(site, counters, arrivals, number);
    Ok(())
}

// For each link its period, by which widths go, if it sends in the slot, else 0: worked out once for all flows, whose width is then the rate times this.
#[tactic(auto, using(crate::proofs::Laws::Moves::sending_end), unfolding(site::specs::Sites::used))]
fn periods_sending(site: &Site, slot: u32) -> [u16; 63]
    ensures { PeriodsIn site.now slot result }
{
    let mut sending = [0; 63];
    for i in 0..site.link_count() {
        if sends_in(site.periods[i], site.offsets[i], slot) {
            sending[i] = site.periods[i];
        }
    }
    sending
}

// One slot of the nine cells of a flow, from its entry link up. What a link moves comes to the next queue, and joins it after that queue was judged.
// A route that cells are too few for, which no site has that passes check 14, ends with the cells.
#[tactic(auto, using(crate::proofs::Laws::Moves::moving_rules))]
fn move_packets(cells: &mut [u32], site: &Site, sending: &[u16; 63], flow: usize, arrival: u16)
    requires { (flow < 64) × Movable cells.old arrival }
    ensures { cells.new ≡ step (hops_in site.now.parents sending.now (get_or site.now.rates flow 0)
        (get_or site.now.entries flow 0)) 0 arrival cells.old }
{
    cells[0] += u32::from(arrival);
    let rate = u32::from(site.rates[flow]);
    let mut coming = 0;
    let mut node = site.entries[flow];
    for k in 0..9 {
        let parent = tree::parent_of(&site.parents, node);
        if node <= parent {
            cells[8] += coming;
            return;
        }
        let queue = cells[k];
        let whole = queue + coming;
        let period = u32::from(tree::value_of(sending, node));
        let width = rate * period;
        let moved = queue.min(width);
        cells[k] = whole - moved;
        coming = moved;
        node = parent;
    }
}

// One slot of every live flow, up to the last of them. The nine cells of each are lent on from where they stand.
#[tactic(auto, using(crate::proofs::Laws::Moves::stepped_rules))]
fn move_all(site: &Site, counters: &mut [u32], arrivals: &[u16], number: u32)
    requires { AllMovable site.now.states counters.old arrivals.now }
    ensures { counters.new ≡ joined (cells_after own site.now counters.old arrivals.now number) 64 0 }
{
    let sending = periods_sending(site, number);
    let mut left = site.flow_count();
    for n in 0..64 {
        if left == 0 {
            break;
        }
        if site.states[n] == 1 {
            let at = 9 * n;
            let end = at + 9;
            move_packets(&mut counters[at..end], site, &sending, n, arrivals[n]);
            left -= 1;
        }
    }
}
