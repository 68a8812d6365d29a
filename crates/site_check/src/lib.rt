// Check 14: whether a site is one that a reading can give.
#![tactic(auto)]

ghost use Rattle.std.specs.Prelude.{◌≡◌, ◌<◌, leb};
ghost use Rattle.rulings.specs.Outcome.{fault_number};
ghost use Rattle.site_check.specs.Check.{node_of, flow_of, ill_node, ill_flow, first_ill_node, first_ill_flow, stands, passes_of, call_fault};

use limits::{Node, flow_limits, node_limits};
use rulings::Fault;
use site::{Flow, Site};

// The node at index i of a site with so many links is not within its limits or, past the last link, not all 0.
#[tactic(auto, using(crate::proofs::Laws::Check::faulty), unfolding(crate::specs::Check::ill_node))]
fn ill_node(links: u8, parents: &[u8; 63], i: usize, node: Node) -> bool
    requires { i < 63 }
    ensures { result ≡ ill_node links parents.now i node }
{
    if i < links as usize {
        return node_limits(parents, i as u8, node).is_err();
    }
    (node.parent, node.capacity, node.gap) != (0, 0, 0)
}

// The flow of a number in this state is neither all 0 nor live and within its limits.
#[tactic(auto, using(crate::proofs::Laws::Check::faulty), unfolding(crate::specs::Check::ill_flow))]
fn ill_flow(links: u8, state: u8, flow: Flow) -> bool
    ensures { result ≡ ill_flow links state flow }
{
    match state {
        0 => (flow.entry, flow.rate, flow.deadline) != (0, 0, 0),
        1 => flow_limits(links, 0, flow).is_err(),
        _ => true,
    }
}

// Each node is in form.
fn nodes_formed(site: &Site) -> bool
    ensures { result ≡ leb 63 (first_ill_node site.now) }
{
    for i in 0..63 {
        let node = Node {
            parent: site.parents[i],
            capacity: site.capacities[i],
            gap: site.gaps[i],
        };
        if ill_node(site.links, &site.parents, i, node) {
            return false;
        }
    }
    true
}

// Each number's flow is in form.
fn flows_formed(site: &Site) -> bool
    ensures { result ≡ leb 64 (first_ill_flow site.now) }
{
    for n in 0..64 {
        let flow = Flow {
            number: n as u8,
            entry: site.entries[n],
            rate: site.rates[n],
            deadline: site.deadlines[n],
        };
        if ill_flow(site.links, site.states[n], flow) {
            return false;
        }
    }
    true
}

// 11, 12 and 13 let the nodes and flows pass, and the schedule is theirs.
fn judged_as_it_is(site: &Site) -> bool
    ensures { result ≡ stands site.now }
{
    let mut own = *site;
    let mut loads = [0u32; 63];
    judgement::settle(&mut own, &mut loads).is_ok()
        && site.offsets == own.offsets
        && site.periods == own.periods
}

// Whether some plan bytes read to the site: every entry of every list is looked at.
#[tactic(auto, using(crate::proofs::Laws::Check::passes_as))]
pub fn passes(site: &Site) -> bool
    ensures { result ≡ passes_of site.now }
{
    site.links <= 63 && nodes_formed(site) && flows_formed(site) && judged_as_it_is(site)
}

// The first of 1 and 14 that a call with these counters fails.
#[tactic(auto, unfolding(crate::specs::Check::call_fault))]
pub fn call_fault(site: &Site, counters: &[u32]) -> Result<(), Fault>
    ensures { fault_number result ≡ call_fault site.now counters.now }
{
    if counters.len() != 576 {
        return Err(Fault::WrongLength);
    }
    if !passes(site) {
        return Err(Fault::NoSite);
    }
    Ok(())
}
