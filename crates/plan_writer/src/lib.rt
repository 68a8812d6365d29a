// Writing plans into a borrowed slice.
#![tactic(auto)]

ghost use Rattle.std.specs.Prelude.{◌≡◌, ◌+◌, ◌≤◌, length};
ghost use Rattle.std.proofs.lemmas.List.Edits.{sets};
ghost use Rattle.rulings.specs.Outcome.{outcome};
ghost use Rattle.slices.specs.Written.{written};
ghost use Rattle.plan_writer.specs.Write.{node_command, node_bytes, flow_command, flow_if_live, plan_bytes};
ghost use Rattle.lists.specs.Lists.{joined};
ghost use Rattle.site_check.specs.Check.{written_if};

use format::{END, FLOW, NODE};
use rulings::{Fault, Refusal};
use site::Site;

// NODE and FLOW byte by byte; plans that are typed are made of them too.
#[tactic(auto, unfolding(format::specs::Bytes::bytes_of))]
pub fn node_command(parent: u8, capacity: u16, gap: u16) -> [u8; 6]
    ensures { result ≡ node_command parent capacity gap }
{
    [
        NODE,
        parent,
        format::low(capacity),
        format::high(capacity),
        format::low(gap),
        format::high(gap),
    ]
}

#[tactic(auto, unfolding(format::specs::Bytes::bytes_of))]
pub fn flow_command(number: u8, entry: u8, rate: u8, deadline: u16) -> [u8; 6]
    ensures { result ≡ flow_command number entry rate deadline }
{
    [
        FLOW,
        number,
        entry,
        rate,
        format::low(deadline),
        format::high(deadline),
    ]
}

// All nodes, from the start on; answers the index after them. The index goes on by the size of a NODE, and that of `put_flows` by the size of a FLOW: constants, so
// that less is to be tested for the next one.
fn put_nodes(site: &Site, out: &mut [u8]) -> usize
    requires few { site.now.links ≤ 63 }
    requires room { length (joined (node_bytes site.now) site.now.links 0) ≤ length out.old }
    ensures bytes { out.new ≡ sets out.old 0 (joined (node_bytes site.now) site.now.links 0) }
    ensures end { result ≡ length (joined (node_bytes site.now) site.now.links 0) }
{
    let mut at = 0;
    for i in 0..site.links as usize {
        let command = node_command(site.parents[i], site.capacities[i], site.gaps[i]);
        slices::put(out, at, &command);
        at += format::size(NODE);
    }
    at
}

// All live flows, from index `start` on; answers the index after them.
fn put_flows(site: &Site, start: usize, out: &mut [u8]) -> usize
    requires { start + length (joined (flow_if_live site.now) 64 0) ≤ length out.old }
    ensures bytes { out.new ≡ sets out.old start (joined (flow_if_live site.now) 64 0) }
    ensures end { result ≡ start + length (joined (flow_if_live site.now) 64 0) }
{
    let mut at = start;
    for number in 0..64 {
        if site.is_live(number) {
            let n = number as usize;
            let command = flow_command(number, site.entries[n], site.rates[n], site.deadlines[n]);
            slices::put(out, at, &command);
            at += format::size(FLOW);
        }
    }
    at
}

// How many bytes the plan has.
#[tactic(auto, using(site::proofs::Laws::Flows::flows_few, crate::proofs::Laws::Write::plan_sized), unfolding(format::specs::Commands::size_of))]
fn plan_size(site: &Site) -> usize
    requires { site.now.links ≤ 63 }
    ensures { result ≡ length (plan_bytes site.now) }
{
    let nodes = format::size(NODE) * site.links as usize;
    let flows = format::size(FLOW) * site.flow_count() as usize;
    nodes + flows + 1
}

// The plan of a site that passed the other checks. The slice is judged before anything is stored.
fn put_plan(site: &Site, out: &mut [u8]) -> Result<usize, Refusal>
    requires { site.now.links ≤ 63 }
    ensures { (outcome result, out.new) ≡ written (plan_bytes site.now) out.old }
{
    let size = plan_size(site);
    if out.len() < size {
        return Err(Fault::WrongLength.at(0));
    }
    let start = put_nodes(site, out);
    let end = put_flows(site, start, out);
    out[end] = END;
    Ok(size)
}

// 01: a writer asks 14 first and judges the slice last.
#[tactic(auto, using(site_check::proofs::Laws::Check::passes_few), unfolding(slices::specs::Written::handed))]
pub fn write_plan(site: Site, out: &mut [u8]) -> Result<usize, Refusal>
    ensures { (outcome result, out.new) ≡ written_if site (plan_bytes site) out.old }
{
    if !site_check::passes(&site) {
        return Err(Fault::NoSite.at(0));
    }
    put_plan(&site, out)
}
