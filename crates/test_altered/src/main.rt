// Check 14 and the writers, on sites with entries changed and on slices that may be too short.
// A line that begins with `P` gives a plan in hexadecimal. Each other line gives the slice's length and then changes of the site that this plan
// reads to, each a field, an index and a value. A line that begins with `#` is printed as it stands.
#![tactic(auto)]

use site::Site;
use testlib_text::Numbers;
use text::Page;

// What the check says, and what the writers, one after the other, answer and leave in the slice.
fn put_case(page: &mut Page, site: Site, space: &mut [u8]) {
    if site_check::passes(&site) {
        page.put(b"passes");
    } else {
        page.put(b"does not pass");
    }
    let planned = plan_writer::write_plan(site, space);
    testlib_text::put_left(page, b", plan", planned, space);
    let scheduled = schedule_writer::write_schedule(site, space);
    testlib_text::put_left(page, b", schedule", scheduled, space);
}

// Prints nothing for a length of which there is no slice. 512 bytes have room for every line: a byte that is left takes three of them, twice.
fn show_case(line: &[u8], site: Site) {
    let mut out = [0; 512];
    let mut page = Page::over(&mut out);
    let mut numbers = Numbers::of(line);
    let size = numbers.next().unwrap_or(0);
    let mut space = testlib_text::numbered();
    if size <= 64 {
        let next = testlib_sites::altered(site, numbers);
        put_case(&mut page, next, &mut space[..size]);
        testlib_text::print_line(&mut page);
    }
}

fn show_comment(line: &[u8]) {
    let mut out = [0; 512];
    let mut page = Page::over(&mut out);
    page.put(line);
    testlib_text::print_line(&mut page);
}

fn show_lines(text: &[u8]) {
    let mut site = Site::empty();
    for whole in text.split_inclusive(|byte| *byte == b'\n') {
        let line = whole.strip_suffix(b"\n").unwrap_or(whole);
        match line {
            [b'P', ..] => site = testlib_sites::read_site(line),
            [b'#', ..] => show_comment(line),
            _ => show_case(line, site),
        }
    }
}

fn main() {
    let mut text = [0; 131072];
    let n = io::read_full(0, &mut text);
    show_lines(&text[..n]);
}
