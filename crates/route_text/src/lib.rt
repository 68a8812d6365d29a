// A route as text, link by link from its entry node up.
#![tactic(auto)]

ghost use Rattle.std.specs.Prelude.{◌≡◌};
ghost use Rattle.text.specs.Page.{Adds};
ghost use Rattle.text.specs.Listed.{each};
ghost use Rattle.tree.specs.Tree.{route};
ghost use Rattle.route_text.specs.Routes.{hop};

use text::Page;
use tree::parent_of;

#[tactic(auto, unfolding(text::specs::Put::puts, crate::specs::Routes::hop))]
fn put_hop(page: &mut Page, node: u8)
    ensures { Adds page.old page.new (hop node) }
{
    page.put_decimal(u64::from(node));
    page.put(b" &gt; ");
}

#[tactic(auto, using(crate::proofs::Laws::Ways::ways), unfolding(text::specs::Put::puts))]
pub fn put_route(page: &mut Page, parents: &[u8], entry: u8)
    ensures { Adds page.old page.new (each hop (route parents.now entry)) }
{
    let mut node = entry;
    loop {
        let parent = parent_of(parents, node);
        if node <= parent {
            return;
        }
        put_hop(page, node);
        node = parent;
    }
}
