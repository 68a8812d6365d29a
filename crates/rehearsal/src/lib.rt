// What a planner types, taken up a line at a time: each that ends is carried out on the site and the counters as the one before it left them.
#![tactic(auto)]

ghost use Rattle.std.specs.Prelude.{ℕ, ◌+◌, ◌≡◌, List, leb, length};
ghost use Rattle.text.specs.Page.{held};
ghost use Rattle.line_answers.specs.Steps.{answered_to, CarriedAs};
ghost use Rattle.rehearsal.specs.Desk.{asked_in, HoldsLine, AllTaken};

use line_answers::answer_line;
use site::Site;
use text::Page;

// The site as it is now, and how many bytes are kept of the line that has not ended: one more than its space has where it is too long.
#[derive(Clone, Copy)]
pub struct Rehearsal {
    pub site: Site,
    pub kept: usize,
}

// How a rehearsal stands after some bytes, how many of them were taken up, and how many bytes their answers have.
#[derive(Clone, Copy)]
pub struct TakenUp {
    pub after: Rehearsal,
    pub taken: usize,
    pub filled: usize,
}

// Carries out the line that the space holds. One that is too long is malformed.
fn answer_held(
    space: &[u8],
    kept: usize,
    site: Site,
    counters: &mut [u32],
    answers: &mut Page<'_>,
) -> Site
    ensures same_space { answers.new.space.ghost_name ≡ answers.old.space.ghost_name }
    ensures carried { (typed : List ℕ) → HoldsLine space.now kept typed
        → CarriedAs (answered_to (asked_in (length space.now) typed) (record { site = site; counters = counters.old }))
        (record { site = result; counters = counters.new }) (held answers.old) (held answers.new) }
{
    if space.len() < kept {
        answers.put(b"error\n");
        return site;
    }
    answer_line(&space[..kept], site, counters, answers)
}

// Whether an answer of 8,192 bytes has room behind those that are filled: no answer is longer, by the law `answers_short`.
fn roomy(filled: usize, size: usize) -> bool
    ensures { result ≡ leb (filled + 8192) size }
{
    8192 <= size && filled <= size - 8192
}

// Takes up what was typed, a line at a time and as long as the answers have room. Each line that ends is carried out, and its answer stands behind those before it.
pub fn take_up(
    bytes: &[u8],
    before: Rehearsal,
    space: &mut [u8],
    counters: &mut [u32],
    out: &mut [u8],
) -> TakenUp
    ensures { AllTaken bytes.now space.old out.old (record { site = before.site; counters = counters.old })
        before.kept result.taken (record { site = result.after.site; counters = counters.new }) space.new result.after.kept (result.filled, out.new) }
{
    let mut site = before.site;
    let mut kept = before.kept;
    let mut answers = Page::over(out);
    let mut taken = 0;
    while taken < bytes.len() && roomy(answers.taken, answers.space.len()) {
        let end = line_words::find(bytes, taken, b'\n').unwrap_or(bytes.len());
        kept = slices::put(space, kept, &bytes[taken..end]);
        taken = end;
        if end < bytes.len() {
            site = answer_held(space, kept, site, counters, &mut answers);
            kept = 0;
            taken = end + 1;
        }
    }
    let after = Rehearsal { site, kept };
    TakenUp {
        after,
        taken,
        filled: answers.taken,
    }
}
