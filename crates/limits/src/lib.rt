// The limits of nodes and flows. Nothing here knows plan bytes.
#![tactic(auto)]

ghost use Rattle.std.specs.Prelude.{◌≡◌};
ghost use Rattle.rulings.specs.Outcome.{fault_number};
ghost use Rattle.limits.specs.Limits.{node_limits, flow_limits};

use rulings::Fault;
use site::Flow;

// The operands of a NODE.
#[derive(Clone, Copy, PartialEq, Eq, Debug)]
pub struct Node {
    pub parent: u8,
    pub capacity: u16,
    pub gap: u16,
}

// 5, 6 and 8 for a node that follows k others with these parents.
#[tactic(auto, unfolding(crate::specs::Limits::node_limits, crate::specs::Limits::bad_node))]
pub fn node_limits(parents: &[u8; 63], k: u8, node: Node) -> Result<(), Fault>
    ensures { fault_number result ≡ node_limits parents.now k node }
{
    if node.capacity == 0 || node.gap == 0 || 1024 < node.gap {
        return Err(Fault::OutsideLimits);
    }
    if k < node.parent {
        return Err(Fault::OutOfPlace);
    }
    if 8 <= tree::depth(parents, node.parent) {
        return Err(Fault::TooDeep);
    }
    Ok(())
}

// 5 and 6 for a flow on a site with so many links, if `next` is the smallest number that it may have.
#[tactic(auto, unfolding(crate::specs::Limits::flow_limits, crate::specs::Limits::bad_flow, crate::specs::Limits::misplaced))]
pub fn flow_limits(links: u8, next: u8, flow: Flow) -> Result<(), Fault>
    ensures { fault_number result ≡ flow_limits links next flow }
{
    if 63 < flow.number || flow.rate == 0 || flow.deadline == 0 {
        return Err(Fault::OutsideLimits);
    }
    if flow.entry == 0 || links < flow.entry || flow.number < next {
        return Err(Fault::OutOfPlace);
    }
    Ok(())
}
