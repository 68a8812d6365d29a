// Text on standard output. No contract can say what is written there: each function answers how many bytes it handed over.
#![tactic(auto)]

ghost use Rattle.std.specs.Prelude.{◌≡◌, ◌≤◌, ℕ, List, Result, length};
ghost use Rattle.std.specs.Fn.{FnOnceReturnsAtMut};
ghost use Rattle.rulings.specs.Outcome.{outcome};
ghost use Rattle.slices.specs.Written.{written};
ghost use Rattle.rulings.specs.declared.Refusal.{Refusal};
ghost use Rattle.site_report.specs.Report.{report_of};
ghost use Rattle.schedule_report.specs.Report.{schedule_report_of};
ghost use Rattle.plan_listing.specs.Listing.{listing_of};
ghost use Rattle.printing.specs.Printed.{front};
ghost use Rattle.printing.specs.Inner.{front_taken};

use rulings::Refusal;
use text::Page;

// The first bytes of a text, none where it has fewer.
#[tactic(auto, unfolding(crate::specs::Printed::front))]
pub fn print_front(text: &[u8], size: usize) -> usize
    ensures { result ≡ front size (length text.now) }
{
    if text.len() < size {
        return 0;
    }
    io::write_all(1, &text[..size]);
    size
}

// What is put on a page, nothing where there was no room for a piece.
pub fn print_page(page: &Page) -> usize
    ensures { result ≡ front page.now.taken (length page.now.space.now) }
{
    print_front(page.space, page.taken)
}

// What a writer puts into a space of 8,192 bytes, nothing where it refuses.
fn print_written<F: FnOnce(&mut [u8]) -> Result<usize, Refusal>>(write: F) -> usize
    requires { F.IsAlwaysCallable write }
    ensures { (text : List ℕ) → length text ≤ 8192
        → ((old new : List ℕ) (told : Result ℕ Refusal) → FnOnceReturnsAtMut F.FnOnce write old told new → (outcome told, new) ≡ written text old)
        → result ≡ length text }
{
    let mut text = [0u8; 8192];
    match write(&mut text) {
        Ok(size) => print_front(&text, size),
        Err(_) => 0,
    }
}

// What `slotplan` prints of plan bytes, all of it: no text is longer than 8,192 bytes, by the law `report_short` of crate `site_report`.
#[tactic(auto, using(site_report::proofs::Laws::Short::report_short))]
pub fn print_report(bytes: &[u8]) -> usize
    ensures { result ≡ length (report_of bytes.now) }
{
    print_written(|out| site_report::report(bytes, out))
}

// What `readschedule` prints of schedule bytes, all of it: `schedule_report_short`.
#[tactic(auto, using(schedule_report::proofs::Laws::Short::schedule_report_short))]
pub fn print_schedule(bytes: &[u8]) -> usize
    ensures { result ≡ length (schedule_report_of bytes.now) }
{
    print_written(|out| schedule_report::report_schedule(bytes, out))
}

// What `listing` prints of plan bytes, all of it: `listing_short`.
#[tactic(auto, using(plan_listing::proofs::Laws::Short::listing_short))]
pub fn print_listing(bytes: &[u8]) -> usize
    ensures { result ≡ length (listing_of bytes.now) }
{
    print_written(|out| plan_listing::list_plan(bytes, out))
}
