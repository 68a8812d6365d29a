// Runs the slot rule on lists from standard input: on each line the lengths of the lists of offsets and periods, and then the gaps.
// A line that begins with `#` is printed as it stands.
#![tactic(auto)]

ghost use Rattle.std.specs.Prelude.{◌+◌, ◌≤◌, length};

use testlib_text::Numbers;
use text::Page;

// Each entry with a space before it.
fn put_list(page: &mut Page, list: &[u16]) {
    for entry in list {
        page.put_field(b" ", u64::from(*entry));
    }
}

// Assigns offsets to the gaps into the two lists, and puts the answer and the lists.
fn put_assign(page: &mut Page, gaps: &[u16], offsets: &mut [u16], periods: &mut [u16]) {
    match pinwheel::assign(gaps, offsets, periods) {
        Ok(base) => page.put_field(b"base ", u64::from(base)),
        Err(refusal) => report_lines::put_verdict(page, Err(refusal)),
    }
    page.put(b" offsets");
    put_list(page, offsets);
    page.put(b" periods");
    put_list(page, periods);
}

// The numbers from `first` on, so that every entry that the call leaves alone can be told.
fn numbered(first: u16) -> [u16; 66]
    requires { first + 66 ≤ 65536 }
{
    let mut list = [0; 66];
    for i in 0..66 {
        list[usize::from(i)] = first + i;
    }
    list
}

// Puts the numbers into the list, as far as it has room; answers how many there are.
fn take_gaps(numbers: &mut Numbers, gaps: &mut [u16]) -> usize
    ensures { result ≤ length gaps.new }
{
    for i in 0..gaps.len() {
        let Some(number) = numbers.next() else {
            return i;
        };
        gaps[i] = testlib_text::low16(number);
    }
    gaps.len()
}

// Prints nothing for a length of which there is no slice.
fn show_case(page: &mut Page, line: &[u8]) {
    let mut numbers = Numbers::of(line);
    let offsets_length = numbers.next().unwrap_or(0);
    let periods_length = numbers.next().unwrap_or(0);
    let mut gaps = [0; 66];
    let mut offsets = numbered(500);
    let mut periods = numbered(700);
    let n = take_gaps(&mut numbers, &mut gaps);
    if offsets_length <= 66 && periods_length <= 66 {
        put_assign(
            page,
            &gaps[..n],
            &mut offsets[..offsets_length],
            &mut periods[..periods_length],
        );
        testlib_text::print_line(page);
    }
}

// 1,024 bytes have room for every line: each of 132 entries takes six of them at most.
fn show_line(line: &[u8]) {
    let mut out = [0; 1024];
    let mut page = Page::over(&mut out);
    if testlib_text::begins(line, b'#') {
        page.put(line);
        testlib_text::print_line(&mut page);
    } else {
        show_case(&mut page, line);
    }
}

fn show_lines(text: &[u8]) {
    for line in text.split_inclusive(|byte| *byte == b'\n') {
        show_line(line.strip_suffix(b"\n").unwrap_or(line));
    }
}

fn main() {
    let mut text = [0; 131072];
    let n = io::read_full(0, &mut text);
    show_lines(&text[..n]);
}
