// Rules 1 to 4 of the slot rule: the period that a base gives a gap, and the largest base that fits. What other crates call takes any numbers and lists.
#![tactic(auto)]

ghost use Rattle.std.specs.Prelude.{◌≡◌, ◌^◌, ◌/◌, ◌≤◌, length};
ghost use Rattle.lists.specs.Search.{some_below, some_of};
ghost use Rattle.lists.specs.Lists.{smallest, largest};
ghost use Rattle.slot_rule.specs.Rule.{exponent, period, fits, base};
ghost use Rattle.slot_rule.specs.Assign.{first_bad};
ghost use Rattle.slot_rule.specs.Inner.{AllowedBase};
ghost use Rattle.bases.specs.Inner.{base_or_none, period_or_none};

// The index of the first gap outside 1 to 1,024.
pub fn first_bad(gaps: &[u16]) -> Option<usize>
    ensures { result ≡ some_below (length gaps.now) (first_bad gaps.now) }
{
    gaps.iter().position(|gap| *gap == 0 || 1024 < *gap)
}

// A gap's period, which is the base times this power of the factor.
#[derive(Clone, Copy, PartialEq, Eq, Debug)]
struct Rise {
    period: u16,
    power: u16,
}

// The base times the factor, as often as it stays within the gap. No product exceeds the gap.
fn rise_of(gap: u16, base: u16, factor: u16) -> Rise
    requires { (2 ≤ factor) × (1 ≤ base) × (base ≤ gap) }
    ensures { (result.period ≡ period factor base gap) × (result.power ≡ factor ^ exponent factor base gap) }
{
    let top = gap / factor;
    let mut period = base;
    let mut power = 1;
    while period <= top {
        period *= factor;
        power *= factor;
    }
    Rise { period, power }
}

// Rule 2 for one gap.
#[tactic(auto, using(crate::proofs::Laws::period_some), unfolding(crate::specs::Inner::period_or_none))]
pub fn period_of(gap: u16, base: u16, factor: u16) -> Option<u16>
    ensures { result ≡ some_of (period_or_none factor base gap) }
{
    if factor < 2 || base == 0 || gap < base {
        return None;
    }
    Some(rise_of(gap, base, factor).period)
}

// One pass for both: rule 1 bounds the bases by the smallest gap, and the largest has the limit of rule 3 for its period.
#[derive(Clone, Copy, PartialEq, Eq, Debug)]
struct Span {
    low: u16,
    high: u16,
}

fn span_of(gaps: &[u16]) -> Span
    requires { 1 ≤ length gaps.now }
    ensures { (result.low ≡ smallest gaps.now) × (result.high ≡ largest gaps.now) }
{
    let mut low = gaps[0];
    let mut high = gaps[0];
    for gap in gaps {
        if *gap < low {
            low = *gap;
        }
        if high < *gap {
            high = *gap;
        }
    }
    Span { low, high }
}

// What a child with this gap adds to the sum, f^(J-j), where `whole` is f^J: it is divided by the factor each time that the base is multiplied by it. With the
// factor 2 this is a shift, which costs less than a division by the period.
fn share(whole: u16, gap: u16, base: u16, factor: u16) -> u16
    requires { (2 ≤ factor) × (1 ≤ base) × (base ≤ gap) }
    ensures { result ≡ whole / factor ^ exponent factor base gap }
{
    let top = gap / factor;
    let mut grown = base;
    let mut times = whole;
    while grown <= top {
        grown *= factor;
        times /= factor;
    }
    times
}

// Rule 3 in whole numbers: J is the largest gap's j, and the limit is that gap's period, b × f^J. The walk that makes it has the power f^J too, so that no base
// costs a division.
fn fits(gaps: &[u16], most: u16, base: u16, factor: u16) -> bool
    requires { AllowedBase factor base gaps.now × (most ≡ largest gaps.now) × (1 ≤ length gaps.now) × (length gaps.now ≤ 63) }
    ensures { result ≡ fits factor base gaps.now }
{
    let limit = rise_of(most, base, factor);
    let mut sum: u32 = 0;
    for gap in gaps {
        sum += u32::from(share(limit.power, *gap, base, factor));
    }
    sum <= u32::from(limit.period)
}

// Rule 4 for the gaps of one parent's children. A base at most the smallest gap / factor gives the periods of a larger one, so only those above are tried.
#[tactic(auto, unfolding(crate::specs::Inner::base_or_none))]
pub fn base_of(gaps: &[u16], factor: u16) -> Option<u16>
    ensures { result ≡ some_of (base_or_none factor gaps.now) }
{
    if factor < 2 || gaps.is_empty() || 63 < gaps.len() {
        return None;
    }
    let span = span_of(gaps);
    let mut base = span.low;
    let tried = base / factor;
    while tried < base {
        if fits(gaps, span.high, base, factor) {
            return Some(base);
        }
        base -= 1;
    }
    None
}
