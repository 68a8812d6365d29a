// Reading a plan: one command after the other, then the judgement of the whole.
#![tactic(auto)]

ghost use Rattle.std.specs.Prelude.{◌≡◌, ◌<◌, MatchResult};
ghost use Rattle.rulings.specs.Outcome.{outcome};
ghost use Rattle.reservations.specs.Reservations.{loads_of};
ghost use Rattle.site.specs.Sites.{with_flow};
ghost use Rattle.plan_commands.specs.Commands.{with_node};
ghost use Rattle.judgement.specs.Judge.{with_site};
ghost use Rattle.plan_reader.specs.Read.{read_of};

use format::{END, FLOW, NODE};
use judgement::Judged;
use limits::Node;
use rulings::{Fault, Refusal};
use site::{Flow, Site};

// 01: nodes are numbered as they come.
#[tactic(auto, unfolding(plan_commands::specs::Commands::with_node))]
fn take_node(site: &mut Site, node: Node)
    requires { site.old.links < 63 }
    ensures { site.new ≡ with_node site.old node }
{
    let i = site.links as usize;
    site.parents[i] = node.parent;
    site.capacities[i] = node.capacity;
    site.gaps[i] = node.gap;
    site.links += 1;
}

// The flow is stored in place, where `with_flow` would copy the site.
#[tactic(auto, unfolding(site::specs::Sites::with_flow))]
fn take_flow(site: &mut Site, flow: Flow)
    requires { flow.number < 64 }
    ensures { site.new ≡ with_flow site.old flow }
{
    let n = flow.number as usize;
    site.states[n] = 1;
    site.entries[n] = flow.entry;
    site.rates[n] = flow.rate;
    site.deadlines[n] = flow.deadline;
}

// The reading, which fills in the loads of the site's links besides; where it refuses, these stay. `next` is the smallest number that a FLOW may still have,
// 0 before the first.
pub fn read_with(bytes: &[u8], loads: &mut [u32; 63]) -> Result<Site, Refusal>
    ensures site { outcome result ≡ read_of bytes.now }
    ensures loads { MatchResult result (λ s. loads.new ≡ loads_of s) (λ e. loads.new ≡ loads.old) }
{
    let mut site = Site::empty();
    let mut next: u8 = 0;
    let mut at = 0;
    while at < bytes.len() {
        let tag = bytes[at];
        if tag == END {
            if plan_commands::more_behind(bytes.len(), at) {
                return Err(Fault::BytesBehindEnd.at(at + 1));
            }
            judgement::settle(&mut site, loads)?;
            return Ok(site);
        }
        if let Err(fault) = plan_commands::judge_command(bytes, at, &site, next) {
            return Err(fault.at(at));
        }
        // NODE and FLOW each go on by their own size, which is a constant: so the next command is begun before the first byte of this one has come from memory.
        match tag {
            NODE => {
                take_node(&mut site, plan_commands::node_at(bytes, at));
                at += format::size(NODE);
            }
            _ => {
                let flow = plan_commands::flow_at(bytes, at);
                take_flow(&mut site, flow);
                next = flow.number + 1;
                at += format::size(FLOW);
            }
        }
    }
    Err(Fault::CutOff.at(bytes.len()))
}

// The site that the bytes stand for.
pub fn read_site(bytes: &[u8]) -> Result<Site, Refusal>
    ensures { outcome result ≡ read_of bytes.now }
{
    let mut loads = [0u32; 63];
    read_with(bytes, &mut loads)
}

// 01: a refusal comes with the empty site.
#[tactic(auto, unfolding(judgement::specs::Judge::with_site, rulings::specs::Outcome::or_else))]
pub fn read_plan(bytes: &[u8]) -> Judged
    ensures { (outcome result.verdict, result.site) ≡ with_site (read_of bytes.now) }
{
    match read_site(bytes) {
        Ok(site) => Judged {
            verdict: Ok(()),
            site,
        },
        Err(refusal) => judgement::refused(refusal),
    }
}
