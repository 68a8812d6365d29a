// How commands stand in bytes: their sizes, and numbers of 16 bits with the low byte first. The reader and the writers go by it.
#![tactic(auto)]

ghost use Rattle.std.specs.Prelude.{◌≡◌, ◌+◌, ◌*◌, ◌/◌, ◌%◌};
ghost use Rattle.format.specs.Commands.{size_of, schedule_size};

// The byte of each command. Plans have nodes and flows, schedules links, and END closes both.
pub const NODE: u8 = 1;

pub const FLOW: u8 = 2;

pub const LINK: u8 = 17;

pub const END: u8 = 255;

// How many bytes a command of a plan takes, its own byte among them; 0 for a byte that is none. END is judged apart.
#[tactic(auto, unfolding(crate::specs::Commands::size_of))]
pub fn size(tag: u8) -> usize
    ensures { result ≡ size_of tag }
{
    match tag {
        NODE | FLOW => 6,
        _ => 0,
    }
}

// The same for a schedule, whose only such command is LINK.
#[tactic(auto, unfolding(crate::specs::Commands::schedule_size))]
pub fn schedule_size(tag: u8) -> usize
    ensures { result ≡ schedule_size tag }
{
    match tag {
        LINK => 6,
        _ => 0,
    }
}

// 01: the low byte comes first.
pub fn word(low: u8, high: u8) -> u16
    ensures { result ≡ low + 256 * high }
{
    u16::from_le_bytes([low, high])
}

// For the writers, the low byte first as well.
pub fn low(v: u16) -> u8
    ensures { result ≡ v % 256 }
{
    v.to_le_bytes()[0]
}

pub fn high(v: u16) -> u8
    ensures { result ≡ v / 256 % 256 }
{
    v.to_le_bytes()[1]
}
