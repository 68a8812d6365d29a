// Admissions, releases, lookups of the sender, starts and slots, on a live site and counters that last from line to line.
// A line that begins with `P` gives the plan of a new site, one with `X` changes of its entries, one with `C` the counters' value, and one with `K` the
// value of a single counter. `A`, `R`, `L`, `T` and `S` call an operation with the operands that follow. A line that begins with `#` is printed as it
// stands.
#![tactic(auto)]

use judgement::Judged;
use rulings::Verdict;
use site::{Flow, Site};
use testlib_text::Numbers;
use text::Page;

// A site needs 576 counters: with one more, a list that is too long can be lent too.
#[derive(Clone, Copy)]
struct Live {
    site: Site,
    counters: [u32; 577],
}

fn low32(value: usize) -> u32 {
    (value % 4294967296) as u32
}

// The first five numbers of the line, 0 for each that is missing.
fn operands(line: &[u8]) -> [usize; 5] {
    let mut numbers = Numbers::of(line);
    let mut operands = [0; 5];
    for operand in operands.iter_mut() {
        *operand = numbers.next().unwrap_or(0);
    }
    operands
}

// Counters that all differ, so that every one that a call changes can be told.
fn different() -> [u32; 577] {
    let mut counters = [0; 577];
    for i in 0..577 {
        counters[i] = u32::MAX - 7 * i as u32;
    }
    counters
}

// The counters that the line gives: all of its number, or all different where it has none.
fn given(line: &[u8]) -> [u32; 577] {
    match Numbers::of(line).next() {
        Some(number) => [low32(number); 577],
        None => different(),
    }
}

// The release that a line with `R` asks for, or else the admission, on the counters that are lent.
fn judged(line: &[u8], site: Site, counters: &mut [u32], numbers: [usize; 5]) -> Judged {
    let number = testlib_text::low8(numbers[1]);
    if testlib_text::begins(line, b'R') {
        return admission::release(site, counters, number);
    }
    let flow = Flow {
        number,
        entry: testlib_text::low8(numbers[2]),
        rate: testlib_text::low8(numbers[3]),
        deadline: testlib_text::low16(numbers[4]),
    };
    admission::admit(site, counters, flow)
}

// Makes the call of a line with `A` or `R`, whose first operand says how many counters are lent, and prints what it answered and changed.
fn call(page: &mut Page, line: &[u8], live: &mut Live) {
    let numbers = operands(line);
    let lent = numbers[0];
    if 577 < lent {
        return;
    }
    let before = *live;
    let answer = judged(line, before.site, &mut live.counters[..lent], numbers);
    live.site = answer.site;
    report_lines::put_verdict(page, answer.verdict);
    testlib_changes::put_site(page, &before.site, &live.site);
    testlib_changes::put_counters(page, &before.counters, &live.counters);
    testlib_text::print_line(page);
}

fn look_up(page: &mut Page, line: &[u8], site: Site) {
    let numbers = operands(line);
    let parent = testlib_text::low8(numbers[0]);
    let slot = low32(numbers[1]);
    call_answers::put_lookup(page, sender::sender(site, parent, slot));
    testlib_text::print_line(page);
}

// Sets the counter that the line names to the line's value, if there is such a counter.
fn set_counter(line: &[u8], counters: &mut [u32; 577]) {
    let numbers = operands(line);
    let index = numbers[0];
    if index < 577 {
        counters[index] = low32(numbers[1]);
    }
}

// Prints what a start or a slot answered and changed.
fn run(page: &mut Page, verdict: Verdict, before: &[u32; 577], after: &[u32; 577]) {
    report_lines::put_verdict(page, verdict);
    testlib_changes::put_counters(page, before, after);
    testlib_text::print_line(page);
}

// Makes the start of a line with `T`, whose operand says how many counters are lent.
fn start(page: &mut Page, line: &[u8], live: &mut Live) {
    let numbers = operands(line);
    let lent = numbers[0];
    if 577 < lent {
        return;
    }
    let before = live.counters;
    let verdict = simulation::start(live.site, &mut live.counters[..lent]);
    run(page, verdict, &before, &live.counters);
}

// The arrivals that the pairs of numbers give; a pair that is not complete, or has no place, is passed over. A line has no more numbers than bytes.
fn arrivals_of(mut numbers: Numbers) -> [u16; 65] {
    let mut arrivals = [0; 65];
    for _ in 0..numbers.line.len() {
        if let (Some(flow), Some(count)) = (numbers.next(), numbers.next()) {
            if flow < 65 {
                arrivals[flow] = testlib_text::low16(count);
            }
        }
    }
    arrivals
}

// Makes the slot of a line with `S`, whose first two operands say how many counters and arrivals are lent.
fn slot(page: &mut Page, line: &[u8], live: &mut Live) {
    let mut numbers = Numbers::of(line);
    let lent = numbers.next().unwrap_or(0);
    let given = numbers.next().unwrap_or(0);
    let number = low32(numbers.next().unwrap_or(0));
    if 577 < lent || 65 < given {
        return;
    }
    let arrivals = arrivals_of(numbers);
    let before = live.counters;
    let verdict = simulation::slot(
        live.site,
        &mut live.counters[..lent],
        &arrivals[..given],
        number,
    );
    run(page, verdict, &before, &live.counters);
}

// Changes the site and the counters as the line says. 16,384 bytes have room for every line: each of 572 entries of a site takes eleven of them at most, each of
// 577 counters fifteen.
fn show_line(line: &[u8], live: &mut Live) {
    let mut out = [0; 16384];
    let mut page = Page::over(&mut out);
    match line {
        [b'#', ..] => {
            page.put(line);
            testlib_text::print_line(&mut page);
        }
        [b'P', ..] => live.site = testlib_sites::read_site(line),
        [b'X', ..] => live.site = testlib_sites::altered(live.site, Numbers::of(line)),
        [b'C', ..] => live.counters = given(line),
        [b'K', ..] => set_counter(line, &mut live.counters),
        [b'A' | b'R', ..] => call(&mut page, line, live),
        [b'T', ..] => start(&mut page, line, live),
        [b'S', ..] => slot(&mut page, line, live),
        [b'L', ..] => look_up(&mut page, line, live.site),
        _ => {}
    }
}

fn show_lines(text: &[u8]) {
    let mut live = Live {
        site: Site::empty(),
        counters: [0; 577],
    };
    for line in text.split_inclusive(|byte| *byte == b'\n') {
        show_line(line.strip_suffix(b"\n").unwrap_or(line), &mut live);
    }
}

fn main() {
    let mut text = [0; 131072];
    let n = io::read_full(0, &mut text);
    show_lines(&text[..n]);
}
