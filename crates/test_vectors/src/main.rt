// Reads plans from standard input, each on a line in hexadecimal, and prints for each the refusal, or how its plan and its schedule are written.
// A line that begins with `#` is printed as it stands.
#![tactic(auto)]

use site::Site;
use text::Page;

// Writes the site into a slice of just the plan's length and compares.
fn put_again(page: &mut Page, bytes: &[u8], site: Site, space: &mut [u8]) {
    let written = plan_writer::write_plan(site, space);
    testlib_text::put_written(page, b" plan", written);
    if bytes == space {
        page.put(b" equal");
    }
}

// 379 bytes are those of 63 links.
fn put_schedule(page: &mut Page, site: Site) {
    let mut space = [0; 379];
    let written = schedule_writer::write_schedule(site, &mut space);
    testlib_text::put_written(page, b" schedule", written);
    if let Ok(size) = written {
        hexadecimal::put_hex(page, space.get(..size).unwrap_or(&[]));
    }
}

fn put_accepted(page: &mut Page, bytes: &[u8], site: Site) {
    let mut space = [0; 2048];
    let size = bytes.len();
    page.put_field(b"accepted links ", u64::from(site.links));
    if size <= 2048 {
        put_again(page, bytes, site, &mut space[..size]);
        put_schedule(page, site);
    }
}

fn put_plan(page: &mut Page, bytes: &[u8]) {
    let read = plan_reader::read_plan(bytes);
    match read.verdict {
        Ok(()) => put_accepted(page, bytes, read.site),
        refused => report_lines::put_verdict(page, refused),
    }
}

// 2,048 bytes have room for every line: a byte of the schedule takes three of them.
fn show_line(line: &[u8]) {
    let mut out = [0; 2048];
    let mut page = Page::over(&mut out);
    if testlib_text::begins(line, b'#') {
        page.put(line);
    } else {
        let mut bytes = [0; 2048];
        let size = testlib_text::parse_hex(line, &mut bytes);
        put_plan(&mut page, bytes.get(..size).unwrap_or(&[]));
    }
    testlib_text::print_line(&mut page);
}

fn show_lines(text: &[u8]) {
    for line in text.split_inclusive(|byte| *byte == b'\n') {
        show_line(line.strip_suffix(b"\n").unwrap_or(line));
    }
}

fn main() {
    let mut text = [0; 131072];
    let n = io::read_full(0, &mut text);
    show_lines(&text[..n]);
}
