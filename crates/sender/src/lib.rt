// Which child of a parent sends in a slot.
#![tactic(auto)]

ghost use Rattle.std.specs.Prelude.{◌≡◌};
ghost use Rattle.rulings.specs.Outcome.{outcome};
ghost use Rattle.sender.specs.Sender.{sending_child, lookup_of, sender_of};

use pinwheel::sends_in;
use rulings::{Fault, Refusal};
use site::Site;

// The child of the parent that sends in the slot, or 0.
#[tactic(auto, using(schedule::proofs::Laws::Schedule::used_most))]
fn sending_child(site: &Site, parent: u8, slot: u32) -> u8
    ensures { result ≡ sending_child site.now parent slot }
{
    for i in (0..site.link_count()).rev() {
        if site.parents[i] == parent && sends_in(site.periods[i], site.offsets[i], slot) {
            return i as u8 + 1;
        }
    }
    0
}

// A lookup without check 14, which is no operation of 01. On a site that passes, as one that was just read does, it is `sender`: the law `sender_looks`.
#[tactic(auto, unfolding(crate::specs::Sender::lookup_of))]
pub fn look_up(site: &Site, parent: u8, slot: u32) -> Result<u8, Refusal>
    ensures { outcome result ≡ lookup_of site.now parent slot }
{
    if site.links < parent {
        return Err(Fault::OutOfPlace.at(0));
    }
    Ok(sending_child(site, parent, slot))
}

// 01: the lookup of parent and slot asks 14, then 6.
#[tactic(auto, unfolding(crate::specs::Sender::sender_of))]
pub fn sender(site: Site, parent: u8, slot: u32) -> Result<u8, Refusal>
    ensures { outcome result ≡ sender_of site parent slot }
{
    if !site_check::passes(&site) {
        return Err(Fault::NoSite.at(0));
    }
    look_up(&site, parent, slot)
}
