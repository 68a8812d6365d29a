// A site by value, with its flows.
#![tactic(auto)]

ghost use Rattle.std.specs.Prelude.{◌≡◌};
ghost use Rattle.site.specs.declared.Site.{Site};
ghost use Rattle.site.specs.Sites.{flow_count, empty_site, used, live, with_states, with_flow, without_flow};

// One value for one plan: node n's entries are at index n - 1, a flow's at its number, and whatever is not in use is 0.
// A flow's state is 0 for a number not in use and 1 for a live flow.
#[derive(Clone, Copy)]
pub struct Site {
    pub links: u8,
    pub parents: [u8; 63],
    pub capacities: [u16; 63],
    pub gaps: [u16; 63],
    pub offsets: [u16; 63],
    pub periods: [u16; 63],
    pub states: [u8; 64],
    pub entries: [u8; 64],
    pub rates: [u8; 64],
    pub deadlines: [u16; 64],
}

// The operands of a FLOW.
#[derive(Clone, Copy, PartialEq, Eq, Debug)]
pub struct Flow {
    pub number: u8,
    pub entry: u8,
    pub rate: u8,
    pub deadline: u16,
}

impl Site {
    // 01: what a refused reading gives and, by 02, U3, what END alone reads to.
    pub fn empty() -> Site
        ensures { result ≡ empty_site }
    {
        Site {
            links: 0,
            parents: [0; 63],
            capacities: [0; 63],
            gaps: [0; 63],
            offsets: [0; 63],
            periods: [0; 63],
            states: [0; 64],
            entries: [0; 64],
            rates: [0; 64],
            deadlines: [0; 64],
        }
    }

    // The site with a live flow at its number; a number that no flow can have changes nothing.
    pub fn with_flow(self, flow: Flow) -> Site
        ensures { result ≡ with_flow self flow }
    {
        let n = flow.number as usize;
        if 64 <= n {
            return self;
        }
        let mut next = self;
        next.states[n] = 1;
        next.entries[n] = flow.entry;
        next.rates[n] = flow.rate;
        next.deadlines[n] = flow.deadline;
        next
    }

    // The site without the flow of that number; a number that no flow can have changes nothing.
    pub fn without_flow(self, number: u8) -> Site
        ensures { result ≡ without_flow self number }
    {
        let n = number as usize;
        if 63 < n {
            return self;
        }
        let mut next = self;
        next.states[n] = 0;
        next.entries[n] = 0;
        next.rates[n] = 0;
        next.deadlines[n] = 0;
        next
    }

    // A number that no flow can have is not live.
    pub fn is_live(&self, number: u8) -> bool
        ensures { result ≡ live self.now number }
    {
        live_in(&self.states, number)
    }

    // How many links the site has, whatever its count says.
    pub fn link_count(&self) -> usize
        ensures { result ≡ used self.now.links }
    {
        link_count(self.links)
    }

    // How many flows are live, which is told beside the number of links, in print and to hosts.
    pub fn flow_count(&self) -> u64
        ensures { result ≡ flow_count self.now }
    {
        live_count(&self.states) as u64
    }
}

// Of lent states whether a flow is live. A number beyond the list is no flow's.
pub fn live_in(states: &[u8], number: u8) -> bool
    ensures { (s : Site) → result ≡ live (with_states s states.now) number }
{
    let n = number as usize;
    if states.len() <= n {
        return false;
    }
    states[n] == 1
}

// How many links a site has, whatever its count says.
pub fn link_count(links: u8) -> usize
    ensures { result ≡ used links }
{
    links.min(63) as usize
}

// How many flows are live. A count of 8 bits is as wide as a state, so that the loop takes several states at a time.
pub fn live_count(states: &[u8; 64]) -> u8
    ensures { (s : Site) → result ≡ flow_count (with_states s states.now) }
{
    let mut count: u8 = 0;
    for state in states {
        if *state == 1 {
            count += 1;
        }
    }
    count
}
