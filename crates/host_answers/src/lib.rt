// Answers of 64 bits, in which a host is told what a call comes to.
#![tactic(auto, unfolding(crate::specs::Answers::answer_of, crate::specs::Answers::valued))]

ghost use Rattle.std.specs.Prelude.{◌≡◌, ◌+◌, ◌*◌};
ghost use Rattle.rulings.specs.Outcome.{accepted, refused, number_of, outcome};
ghost use Rattle.reservations.specs.Reservations.{delay_bound};
ghost use Rattle.site.specs.Sites.{flow_count};
ghost use Rattle.flow_checks.specs.Flows.{number_ruling};
ghost use Rattle.host_answers.specs.Answers.{told, answer_of, valued};

use rulings::{Fault, Refusal};
use site::Site;

// How many values there are, and places: those of 56 bits.
const VALUES: u64 = 1 << 56;

// The number in the highest 8 bits, the place in the others. Every place that a call tells is below 2^56.
pub fn refusal(number: u8, place: usize) -> u64
    ensures { result ≡ answer_of (refused number place) }
{
    u64::from(number) * VALUES + place as u64 % VALUES
}

// A refusal at place 0, as most checks of a call have it.
#[tactic(auto, using(crate::proofs::Laws::Told::told_fault))]
pub fn refusal_of(fault: Fault) -> u64
    ensures { told result ≡ refused (number_of fault) 0 }
{
    refusal(fault.number(), 0)
}

// What an accepted call gives, as a value of 64 bits, or its refusal.
pub fn answer(call: Result<u64, Refusal>) -> u64
    ensures { result ≡ answer_of (outcome call) }
{
    match call {
        Ok(value) => value % VALUES,
        Err(refused) => refusal(refused.fault.number(), refused.place),
    }
}

// The links in the lowest 8 bits of the value, the flows in the next.
#[tactic(auto, using(site::proofs::Laws::Flows::flows_few, crate::proofs::Laws::Told::told_value))]
pub fn sizes(site: &Site) -> u64
    ensures { told result ≡ accepted (site.now.links + 256 * flow_count site.now) }
{
    u64::from(site.links) + 256 * site.flow_count()
}

// The bound of a live flow.
#[tactic(auto, using(crate::proofs::Laws::Told::told_value), unfolding(crate::specs::Answers::valued))]
pub fn bound_of(site: &Site, number: u8) -> u64
    ensures { told result ≡ valued (number_ruling site.now number) (delay_bound site.now number) }
{
    match flow_checks::judge_number(&site.states, number) {
        Ok(()) => u64::from(bounds::delay_bound(site, number)),
        Err(refused) => answer(Err(refused)),
    }
}
