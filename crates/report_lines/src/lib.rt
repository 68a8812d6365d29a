// What printed texts have in common: refusals, verdicts and a link's slots, and a text handed to the slice of the caller.
#![tactic(auto, unfolding(text::specs::Put::puts))]

ghost use Rattle.std.specs.Prelude.{◌≡◌, take};
ghost use Rattle.text.specs.Page.{Adds};
ghost use Rattle.rulings.specs.Outcome.{outcome};
ghost use Rattle.report_lines.specs.Lines.{refusal as refusal·, refusal_line, verdict_text, slots_text};
ghost use Rattle.slices.specs.Written.{written};

use rulings::{Fault, Refusal, Verdict};
use text::Page;

// 01: number and place. The line stays open, since an answer of `rehearse` ends its own.
#[tactic(auto, unfolding(text::specs::Put::puts, crate::specs::Lines::refusal))]
pub fn put_refusal(page: &mut Page, number: u8, place: usize)
    ensures { Adds page.old page.new (refusal· number place) }
{
    page.put_field(b"refused ", u64::from(number));
    page.put_field(b" ", place as u64);
}

// An accepted call brings no figures, so one word stands for it.
#[tactic(auto, unfolding(text::specs::Put::puts, crate::specs::Lines::verdict_text))]
pub fn put_verdict(page: &mut Page, verdict: Verdict)
    ensures { Adds page.old page.new (verdict_text (outcome verdict)) }
{
    match verdict {
        Ok(()) => page.put(b"accepted"),
        Err(refusal) => put_refusal(page, refusal.fault.number(), refusal.place),
    }
}

// 01: of a refused plan this line is all that is printed.
#[tactic(auto, using(text::proofs::Laws::Put::puts_append), unfolding(text::specs::Put::puts))]
pub fn put_refusal_line(page: &mut Page, number: u8, place: usize)
    ensures { Adds page.old page.new (refusal_line number place) }
{
    put_refusal(page, number, place);
    page.put(b"\n");
}

// 01: a writer fills the front of the borrowed slice. What it writes here are the first `size` bytes of the text, all of them where it has fewer.
#[tactic(auto, unfolding(slices::specs::Written::written))]
pub fn deliver(text: &[u8], size: usize, out: &mut [u8]) -> Result<usize, Refusal>
    ensures { (outcome result, out.new) ≡ written (take size text.now) out.old }
{
    let front = size.min(text.len());
    if out.len() < front {
        return Err(Fault::WrongLength.at(0));
    }
    out[..front].copy_from_slice(&text[..front]);
    Ok(front)
}

pub fn put_slots(page: &mut Page, offset: u16, period: u16)
    ensures { Adds page.old page.new (slots_text offset period) }
{
    page.put_field(b" offset ", u64::from(offset));
    page.put_field(b" period ", u64::from(period));
    page.put(b"\n");
}
