// What a call comes to: accepted, with what it gives, or refused. The definitions say it in terms of 01's tables.
#![tactic(auto)]

ghost use Rattle.std.specs.Prelude.{◌≡◌};
ghost use Rattle.rulings.specs.declared.Refusal.{Refusal};
ghost use Rattle.rulings.specs.Outcome.{number_of};

// What a check finds at fault, with the number of its row in the tables of 01 and, from 21 on, of 02.
#[derive(Clone, Copy, PartialEq, Eq, Debug)]
pub enum Fault {
    WrongLength = 1,
    CutOff = 2,
    UnknownCommand = 3,
    NodeBehindFlow = 4,
    OutsideLimits = 5,
    OutOfPlace = 6,
    TooManyNodes = 7,
    TooDeep = 8,
    BytesBehindEnd = 10,
    Crowded = 11,
    AboveCapacity = 12,
    AboveDeadline = 13,
    NoSite = 14,
    NumberLive = 15,
    NumberNotLive = 16,
    NoRoom = 17,
    TooLate = 18,
    TooManyPackets = 19,
    StrayArrivals = 20,
    LinkOutOfOrder = 21,
    SlotsOutside = 22,
}

impl Fault {
    // The number by which planners, hosts and markers know it.
    pub fn number(self) -> u8
        ensures { result ≡ number_of self }
    {
        self as u8
    }

    // The refusal for this fault at a place.
    pub fn at(self, place: usize) -> Refusal
        ensures { result ≡ record { fault = self; place = place } }
    {
        Refusal { fault: self, place }
    }
}

// A refusal has the number and the place of 01's tables.
#[derive(Clone, Copy, PartialEq, Eq, Debug)]
pub struct Refusal {
    pub fault: Fault,
    pub place: usize,
}

// Of a call that gives nothing besides, or whose site stands beside it.
pub type Verdict = Result<(), Refusal>;
