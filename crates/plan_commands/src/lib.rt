// The commands of a plan, each by itself: its operands and its checks. What bytes come to as a whole is for the reader.
#![tactic(auto)]

ghost use Rattle.std.specs.Prelude.{◌≡◌};
ghost use Rattle.rulings.specs.Outcome.{fault_number};
ghost use Rattle.plan_commands.specs.Commands.{Draft, node_fault};
ghost use Rattle.plan_commands.specs.Inner.{Known, more_behind, node_within, flow_within, fault_at};

use format::NODE;
use limits::Node;
use rulings::Fault;
use site::{Flow, Site};

// The operands of the NODE at index `at`, zeros where not all of its bytes are there. One test finds them all there, and each is read from where it stands:
// this is done twice for each command of a plan, and an array of the five between would take up to 1.7 times the steps.
#[tactic(auto, using(crate::proofs::Laws::Commands::node_left), unfolding(crate::specs::Inner::node_within))]
pub fn node_at(bytes: &[u8], at: usize) -> Node
    ensures { result ≡ node_within bytes.now at }
{
    match bytes.get(at..) {
        Some([_, parent, low, high, gap_low, gap_high, ..]) => Node {
            parent: *parent,
            capacity: format::word(*low, *high),
            gap: format::word(*gap_low, *gap_high),
        },
        _ => Node {
            parent: 0,
            capacity: 0,
            gap: 0,
        },
    }
}

// The operands of the FLOW at index `at`, zeros where not all of its bytes are there.
#[tactic(auto, using(crate::proofs::Laws::Commands::flow_left), unfolding(crate::specs::Inner::flow_within))]
pub fn flow_at(bytes: &[u8], at: usize) -> Flow
    ensures { result ≡ flow_within bytes.now at }
{
    match bytes.get(at..) {
        Some([_, number, entry, rate, deadline_low, deadline_high, ..]) => Flow {
            number: *number,
            entry: *entry,
            rate: *rate,
            deadline: format::word(*deadline_low, *deadline_high),
        },
        _ => Flow {
            number: 0,
            entry: 0,
            rate: 0,
            deadline: 0,
        },
    }
}

// 4 and 7 for a NODE, then 5, 6 and 8.
#[tactic(auto, unfolding(crate::specs::Commands::node_fault))]
fn judge_node(site: &Site, next: u8, node: Node) -> Result<(), Fault>
    ensures { (d : Draft) → Known d site.now.links next site.now.parents → fault_number result ≡ node_fault d node }
{
    if 0 < next {
        return Err(Fault::NodeBehindFlow);
    }
    if 63 <= site.links {
        return Err(Fault::TooManyNodes);
    }
    limits::node_limits(&site.parents, site.links, node)
}

// The first check that the command at index `at` fails. It is not END. Behind the last byte it is 2: nothing is there.
#[tactic(auto, unfolding(crate::specs::Inner::fault_at, format::specs::Reading::fault_of, format::specs::Commands::size_of, crate::specs::Commands::later_fault, crate::specs::Inner::node_within, crate::specs::Inner::flow_within, crate::specs::Commands::flow_fault))]
pub fn judge_command(bytes: &[u8], at: usize, site: &Site, next: u8) -> Result<(), Fault>
    ensures { (d : Draft) → Known d site.now.links next site.now.parents → fault_number result ≡ fault_at bytes.now at d }
{
    let Some(&tag) = bytes.get(at) else {
        return Err(Fault::CutOff);
    };
    let size = format::size(tag);
    if size == 0 {
        return Err(Fault::UnknownCommand);
    }
    if bytes.len() - at < size {
        return Err(Fault::CutOff);
    }
    if tag == NODE {
        return judge_node(site, next, node_at(bytes, at));
    }
    limits::flow_limits(site.links, next, flow_at(bytes, at))
}

// 10 for an END at index `at`.
#[tactic(auto, unfolding(crate::specs::Inner::more_behind))]
pub fn more_behind(size: usize, at: usize) -> bool
    ensures { result ≡ more_behind size at }
{
    1 < size.saturating_sub(at)
}
