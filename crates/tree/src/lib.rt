// The tree of a site: the parent of a node, the entry of its link, and its depth. It knows lists of parents and no site.
#![tactic(auto)]

ghost use Rattle.std.specs.Prelude.{◌≡◌};
ghost use Rattle.tree.specs.Tree.{of_link, up, depth_of, entry_of};

// What a list has for a node: its entries are one below the node's number, and there is none of the root or beyond the list.
fn entry_of<T: Copy>(list: &[T], node: u8) -> Option<T>
    ensures { result ≡ entry_of list.now node }
{
    let at = node.checked_sub(1)? as usize;
    list.get(at).copied()
}

// The parent of a node; the root, and a number beyond the list, are their own.
#[tactic(auto, using(crate::proofs::Laws::Tree::up_or))]
pub fn parent_of(parents: &[u8], node: u8) -> u8
    ensures { result ≡ up parents.now node }
{
    entry_of(parents, node).unwrap_or(node)
}

// The entry of a node's link; the root, and a number beyond the list, have 0.
#[tactic(auto, using(crate::proofs::Laws::Tree::link_or))]
pub fn value_of(values: &[u16], node: u8) -> u16
    ensures { result ≡ of_link values.now node }
{
    entry_of(values, node).unwrap_or(0)
}

// 01: one more than the parent's depth. It calls itself on the parent, whose number is smaller.
#[tactic(auto, using(crate::proofs::Laws::Tree::depths))]
pub fn depth(parents: &[u8; 63], node: u8) -> u8
    ensures { result ≡ depth_of parents.now node }
{
    let parent = parent_of(parents, node);
    if node <= parent {
        return 0;
    }
    depth(parents, parent) + 1
}
