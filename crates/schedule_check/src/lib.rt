// Schedules by value, and check 14 of one that is handed in.
#![tactic(auto)]

ghost use Rattle.std.specs.Prelude.{◌≡◌, ◌≤◌, take, drop};
ghost use Rattle.std.specs.List.{list_any, zip};
ghost use Rattle.schedule_check.specs.Schedules.{of_lists, without_links, bad_slots};
ghost use Rattle.schedule_check.specs.Check.{in_use, schedule_passes};

// How many links there are, and when each sends: link n at index n - 1. Entries past the last link are 0.
#[derive(Clone, Copy, PartialEq, Eq, Debug)]
pub struct Schedule {
    pub links: u8,
    pub offsets: [u16; 63],
    pub periods: [u16; 63],
}

impl Schedule {
    pub fn without_links() -> Schedule
        ensures { result ≡ without_links }
    {
        Schedule {
            links: 0,
            offsets: [0; 63],
            periods: [0; 63],
        }
    }

    // 02, U1: whether some schedule file reads to this schedule.
    pub fn passes(&self) -> bool
        ensures { result ≡ schedule_passes self.now }
    {
        lists_pass(self.links, &self.offsets, &self.periods)
    }
}

// A period of 0 has no offset below it, so two tests do. Neither waits for the other, as those of `in_use`: a test that might be left out is a jump in a loop.
#[tactic(auto, using(crate::proofs::Laws::Slots::slots_many, crate::proofs::Laws::Slots::slots_rest))]
pub fn bad_slots(offset: u16, period: u16) -> bool
    ensures { result ≡ bad_slots offset period }
{
    (1024 < period) | (period <= offset)
}

// Whether some link's slots are not within their limits. No entry ends the loop, nor that of `rest_used`, so that either takes several entries at a time.
fn slots_bad(links: u8, offsets: &[u16; 63], periods: &[u16; 63]) -> bool
    requires { links ≤ 63 }
    ensures { result ≡ list_any (λ p. bad_slots p.0 p.1) (take links (zip offsets.now periods.now)) }
{
    let mut bad = false;
    for i in 0..links as usize {
        let outside = bad_slots(offsets[i], periods[i]);
        bad |= outside;
    }
    bad
}

#[tactic(auto, unfolding(crate::specs::Check::in_use))]
fn in_use(offset: u16, period: u16) -> bool
    ensures { result ≡ in_use offset period }
{
    (offset != 0) | (period != 0)
}

// Whether something stands past the last link.
fn rest_used(links: u8, offsets: &[u16; 63], periods: &[u16; 63]) -> bool
    ensures { result ≡ list_any (λ p. in_use p.0 p.1) (drop links (zip offsets.now periods.now)) }
{
    let mut used = false;
    for i in links as usize..63 {
        used |= in_use(offsets[i], periods[i]);
    }
    used
}

// The same as `passes` of lists that are lent. One that has not 63 entries is no schedule's.
#[tactic(auto, unfolding(crate::specs::Check::schedule_passes))]
pub fn lists_pass(links: u8, offsets: &[u16], periods: &[u16]) -> bool
    ensures { result ≡ schedule_passes (of_lists links offsets.now periods.now) }
{
    let (Some(offsets), Some(periods)) = (offsets.as_array(), periods.as_array()) else {
        return false;
    };
    if 63 < links {
        return false;
    }
    !slots_bad(links, offsets, periods) && !rest_used(links, offsets, periods)
}
