// The judgement of a site's nodes and flows by 11, 12 and 13.
#![tactic(auto)]

ghost use Rattle.std.specs.Prelude.{◌≡◌};
ghost use Rattle.rulings.specs.Outcome.{number_of, outcome, refused};
ghost use Rattle.judgement.specs.Judge.{with_site, judge_of};
ghost use Rattle.judgement.specs.Inner.{SettledAs};

use rulings::{Fault, Refusal, Verdict};
use site::Site;

// The verdict of a judgement, a reading or a change, and the site that it gives.
#[derive(Clone, Copy)]
pub struct Judged {
    pub verdict: Verdict,
    pub site: Site,
}

// A refusal told by its number, whichever that is, and the site that comes with it.
#[derive(Clone, Copy)]
pub struct Told {
    pub number: u8,
    pub place: usize,
    pub site: Site,
}

// 01: a refusal comes with the empty site; by a number of any table, and of one of them.
#[tactic(auto, unfolding(crate::specs::Judge::with_site, rulings::specs::Outcome::or_else))]
pub fn refusal(number: u8, place: usize) -> Told
    ensures { (refused result.number result.place, result.site) ≡ with_site (refused number place) }
{
    Told {
        number,
        place,
        site: Site::empty(),
    }
}

#[tactic(auto, unfolding(crate::specs::Judge::with_site, rulings::specs::Outcome::or_else))]
pub fn refused(refusal: Refusal) -> Judged
    ensures { (outcome result.verdict, result.site) ≡ with_site (refused (number_of refusal.fault) refusal.place) }
{
    Judged {
        verdict: Err(refusal),
        site: Site::empty(),
    }
}

// The judgement of 11, 12 and 13 on a site, whose schedule and loads are filled in. Where it refuses, the loads stay, and the schedule filled in says nothing.
pub fn settle(site: &mut Site, loads: &mut [u32; 63]) -> Verdict
    ensures { SettledAs site.old (outcome result) site.new loads.old loads.new }
{
    let mut offsets = [0u16; 63];
    let mut periods = [0u16; 63];
    if let Some(parent) = schedule::assign_all(site, &mut offsets, &mut periods) {
        return Err(Fault::Crowded.at(parent));
    }
    site.offsets = offsets;
    site.periods = periods;
    let mut sums = [0u32; 63];
    let faults = link_loads::first_faults(site, &mut sums);
    if let Some(link) = faults.over {
        return Err(Fault::AboveCapacity.at(link + 1));
    }
    if let Some(flow) = faults.late {
        return Err(Fault::AboveDeadline.at(flow));
    }
    *loads = sums;
    Ok(())
}

// The site with its schedule where 11, 12 and 13 let it pass. The offsets and periods handed in play no part. It is no operation of 01: where a gap is
// outside its limits it answers 11 too, and nothing reaches that, since a reading and check 14 judge the gaps before (`judged_gapped` of crate `plan`,
// `ungapped_fails` of `site_check`).
pub fn judge(site: Site) -> Judged
    ensures { (outcome result.verdict, result.site) ≡ with_site (judge_of site) }
{
    let mut next = site;
    let mut loads = [0u32; 63];
    match settle(&mut next, &mut loads) {
        Ok(()) => Judged {
            verdict: Ok(()),
            site: next,
        },
        Err(refusal) => refused(refusal),
    }
}
