// A planner tries a site by typing. The one argument names a file with the plan; each line of standard input asks for a call, or for something of
// the site as it is now, and gets its answer. What lines come to is in crate `rehearsal`; here they are read, handed on and answered.
#![tactic(auto)]

ghost use Rattle.std.specs.Prelude.{ℕ, ◌≡◌, ◌≤◌, List, length};
ghost use Rattle.io.specs.Counts.{IsPrefixLen};
ghost use Rattle.rehearsal.specs.Desk.{begun, desk, fed, GoesOn, SomeTyped};

use rehearsal::Rehearsal;
use rulings::Refusal;
use site::Site;
use std::io::{Read, Stdin};
use text::Page;

// Takes up what was typed and prints the answers. No answer has more than 8,192 bytes, so the space takes at least one at a time.
fn answer_bytes(
    bytes: &[u8],
    before: Rehearsal,
    space: &mut [u8],
    counters: &mut [u32],
) -> Rehearsal
    ensures { GoesOn bytes.now (record { site = before.site; counters = counters.old }) space.old before.kept
        (record { site = result.site; counters = counters.new }) space.new result.kept }
{
    let mut out = [0u8; 16384];
    let mut now = before;
    let mut rest = bytes;
    while !rest.is_empty() {
        let next = rehearsal::take_up(rest, now, space, counters, &mut out);
        printing::print_front(&out, next.filled);
        now = next.after;
        rest = &rest[next.taken..];
    }
    now
}

// Reads what is there, once, into the front of the space, and answers how many bytes. A read that fails counts as the end of the input.
fn read_some(mut input: Stdin, bytes: &mut [u8]) -> usize
    ensures { IsPrefixLen result bytes.new }
{
    match input.read(bytes) {
        Ok(n) => n,
        Err(_) => 0,
    }
}

// Answers the lines of standard input. Nothing says that an input ends, so the loop counts its reads, up to a number that no run reaches.
fn answer_input(
    before: Rehearsal,
    space: &mut [u8],
    counters: &mut [u32],
    input: Stdin,
) -> Rehearsal
    ensures { SomeTyped (record { site = before.site; counters = counters.old }) space.old before.kept
        (record { site = result.site; counters = counters.new }) space.new result.kept }
{
    let mut bytes = [0u8; 1024];
    let mut now = before;
    for _ in 0..u64::MAX {
        let size = read_some(input, &mut bytes);
        if size == 0 {
            break;
        }
        now = answer_bytes(&bytes[..size], now, space, counters);
    }
    now
}

// Starts a rehearsal of the site and answers all lines; the last may lack its newline. A start that is refused leaves all as it is. Answers the site that is left.
fn rehearse_site(site: Site, counters: &mut [u32], input: Stdin) -> Site
    ensures { (typed : List ℕ) × (record { site = result; counters = counters.new }
        ≡ (fed 1000 (desk (begun site counters.old)) typed).state) }
{
    let mut space = [0u8; 1000];
    let _ = simulation::start(site, counters);
    let begun = Rehearsal { site, kept: 0 };
    let ended = answer_input(begun, &mut space, counters, input);
    let last = answer_bytes(b"\n", ended, &mut space, counters);
    last.site
}

// In two writes: a pipe that has room for the refusal and not for the line's end gets the refusal.
fn print_refusal(refusal: Refusal) {
    let mut line = [0u8; 64];
    let mut page = Page::over(&mut line);
    report_lines::put_refusal(&mut page, refusal.fault.number(), refusal.place);
    io::write_all(1, page.text());
    io::write_all(1, b"\n");
}

fn print_counts(site: &Site) {
    let mut line = [0u8; 64];
    let mut page = Page::over(&mut line);
    site_report::put_counts(&mut page, site);
    io::write_all(1, page.text());
}

fn rehearse_plan(bytes: &[u8], input: Stdin) {
    match plan_reader::read_site(bytes) {
        Ok(site) => {
            let mut counters = [0u32; 576];
            print_counts(&site);
            rehearse_site(site, &mut counters, input);
        }
        Err(refused) => print_refusal(refused),
    }
}

fn tell_unopened(path: &[u8]) {
    io::write_all(2, b"rehearse: cannot open ");
    io::write_all(2, path);
    io::write_all(2, b"\n");
}

// No plan is longer than 763 bytes, so the first 1,024 of the file settle every answer: the law `read_first` of crate `plan_reader`.
fn main(rt: HostRuntime) {
    if !arguments::has_word(&rt, 1) || arguments::has_word(&rt, 2) {
        io::write_all(2, b"usage: rehearse PLAN\n");
        return;
    }
    let mut path = io::buffer();
    let length = arguments::put_word(&rt, 1, &mut path).unwrap_or(0);
    let mut bytes = [0u8; 1024];
    match arguments::read_front(&rt, &path[..length], &mut bytes) {
        Some(size) => rehearse_plan(&bytes[..size], rt.stdin()),
        None => tell_unopened(&path[..length]),
    }
}
