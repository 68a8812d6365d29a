// Schedules read back, and handed to the writer with entries changed.
// A line that begins with `W` gives the length of a slice and then changes of the schedule that the last file read to, each a field, an index and a value: field 0
// is the number of links, 1 an offset, 2 a period. A line that begins with `#` is printed as it stands. Any other line is a schedule file in hexadecimal.
#![tactic(auto)]

use schedule_check::Schedule;
use schedule_reader::Reading;
use testlib_text::{Change, Numbers};
use text::Page;

// The schedule with one entry changed, or as it is where there is no such entry or the value is too large. The number of links has no index.
fn changed(schedule: Schedule, change: Change) -> Schedule {
    let mut next = schedule;
    let word = testlib_text::low16(change.value);
    let fits = change.value <= 65535 && change.index < 63;
    match change.field {
        0 if change.value <= 255 => next.links = testlib_text::low8(change.value),
        1 if fits => next.offsets[change.index] = word,
        2 if fits => next.periods[change.index] = word,
        _ => {}
    }
    next
}

// The schedule with all the changes of a line made in turn.
fn altered(schedule: Schedule, mut numbers: Numbers) -> Schedule {
    let mut next = schedule;
    while let Ok(change) = numbers.next_change() {
        next = changed(next, change);
    }
    next
}

// Writes the schedule with the line's changes; prints nothing for a length of which there is no slice.
fn show_writing(page: &mut Page, line: &[u8], schedule: Schedule) {
    let mut numbers = Numbers::of(line);
    let size = numbers.next().unwrap_or(0);
    let mut space = testlib_text::numbered();
    if size <= 64 {
        let next = altered(schedule, numbers);
        let written = schedule_writer::write_schedule_of(next, &mut space[..size]);
        testlib_text::put_left(page, b"schedule", written, &space[..size]);
        testlib_text::print_line(page);
    }
}

// Writes the schedule into a slice of just the file's length and compares.
fn put_again(page: &mut Page, bytes: &[u8], schedule: Schedule, space: &mut [u8]) {
    let written = schedule_writer::write_schedule_of(schedule, space);
    testlib_text::put_written(page, b" written", written);
    if bytes == space {
        page.put(b" equal");
    }
}

fn put_reading(page: &mut Page, bytes: &[u8], read: Reading) {
    let mut space = [0; 2048];
    let size = bytes.len();
    if let Err(refusal) = read.verdict {
        report_lines::put_verdict(page, Err(refusal));
        return;
    }
    page.put_field(b"accepted links ", u64::from(read.schedule.links));
    if size <= 2048 {
        put_again(page, bytes, read.schedule, &mut space[..size]);
    }
}

// Answers the schedule that the file of the line reads to.
fn show_file(page: &mut Page, line: &[u8]) -> Schedule {
    let mut space = [0; 2048];
    let size = testlib_text::parse_hex(line, &mut space);
    let bytes = space.get(..size).unwrap_or(&[]);
    let read = schedule_reader::read_schedule(bytes);
    put_reading(page, bytes, read);
    testlib_text::print_line(page);
    read.schedule
}

// Answers the schedule to be altered from here on. 512 bytes have room for every line: a byte that is left takes three of them.
fn show_line(line: &[u8], schedule: Schedule) -> Schedule {
    let mut out = [0; 512];
    let mut page = Page::over(&mut out);
    match line {
        [b'#', ..] => {
            page.put(line);
            testlib_text::print_line(&mut page);
            schedule
        }
        [b'W', ..] => {
            show_writing(&mut page, line, schedule);
            schedule
        }
        _ => show_file(&mut page, line),
    }
}

fn show_lines(text: &[u8]) {
    let mut schedule = Schedule::without_links();
    for line in text.split_inclusive(|byte| *byte == b'\n') {
        schedule = show_line(line.strip_suffix(b"\n").unwrap_or(line), schedule);
    }
}

fn main() {
    let mut text = [0; 131072];
    let n = io::read_full(0, &mut text);
    show_lines(&text[..n]);
}
