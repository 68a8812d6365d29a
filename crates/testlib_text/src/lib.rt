// What the test programs share: lines of text with plans in hexadecimal or numbers in decimal, and what they print.
#![tactic(auto, unfolding(text::specs::Put::puts))]

ghost use Rattle.std.specs.Prelude.{◌%◌, ◌-◌, ◌*◌, ◌+◌, ◌<◌, ◌≡◌, length, take, cond, Some, None};
ghost use Rattle.text.specs.Decimal.{value_of};
ghost use Rattle.lists.specs.Search.{some_below};
ghost use Rattle.testlib_text.specs.Lines.{begins_with, scanned, number_told, number_from, change_told, change_from};
ghost use Rattle.text.specs.Page.{Adds, held};
ghost use Rattle.rulings.specs.Outcome.{outcome};
ghost use Rattle.testlib_text.specs.Printed.{written_text, left_text, numbered_bytes, line_shown};
ghost use Rattle.testlib_text.specs.Hex.{hex_value, hex_bytes, hex_stored, filled};

use rulings::Refusal;
use text::Page;

#[tactic(auto, using(crate::proofs::Laws::Lines::begins_some, crate::proofs::Laws::Lines::begins_none))]
pub fn begins(line: &[u8], byte: u8) -> bool
    ensures { result ≡ begins_with line.now byte }
{
    match line {
        [first, ..] => *first == byte,
        [] => false,
    }
}

// The index of the first byte from `start` on that is a digit or, if `digit` is false, that is none.
fn scan(line: &[u8], start: usize, digit: bool) -> Option<usize>
    ensures { result ≡ some_below (length line.now) (scanned line.now start digit) }
{
    for at in start..line.len() {
        if line[at].is_ascii_digit() == digit {
            return Some(at);
        }
    }
    None
}

// The value of a hexadecimal digit.
#[tactic(auto, using(std::proofs::lemmas::Bool::Decides::nat_tests), unfolding(crate::specs::Hex::hex_value))]
fn digit(c: u8) -> Option<u8>
    ensures { result ≡ some_below 16 (hex_value c) }
{
    match c {
        b'0'..=b'9' => Some(c - b'0'),
        b'A'..=b'F' => Some(c - b'A' + 10),
        _ => None,
    }
}

// Puts the byte after the first n if there is room; answers how many there are then. A line may give more bytes than there is room for: where `slices::put`
// answers one more than there are, this answers n, so that the bytes that are there can be read.
#[tactic(auto, using(std::proofs::lemmas::Bool::Decides::nat_tests), unfolding(crate::specs::Hex::hex_stored))]
fn store(bytes: &mut [u8], n: usize, byte: u8) -> usize
    ensures { (result, bytes.new) ≡ hex_stored (n, bytes.old) byte }
{
    if n < bytes.len() {
        bytes[n] = byte;
        return n + 1;
    }
    n
}

// The bytes that the line's pairs of hexadecimal digits stand for, as many as there is room for; answers how many these are.
#[tactic(auto, using(crate::proofs::Laws::Hex::parsing))]
pub fn parse_hex(line: &[u8], bytes: &mut [u8]) -> usize
    ensures { (result, bytes.new) ≡ filled (hex_bytes line.now) bytes.old }
{
    let mut n = 0;
    let mut high = None;
    for c in line {
        if let Some(value) = digit(*c) {
            if let Some(first) = high {
                n = store(bytes, n, first * 16 + value);
                high = None;
            } else {
                high = Some(value);
            }
        }
    }
    n
}

// What the first ten digits say: enough for every number of 32 bits.
#[tactic(auto, using(crate::proofs::Laws::Lines::saying))]
fn value_of(digits: &[u8]) -> usize
    ensures { result ≡ value_of (take 10 digits.now) }
{
    let few = &digits[..digits.len().min(10)];
    let mut value = 0;
    for digit in few {
        value = value * 10 + usize::from(digit.saturating_sub(b'0'));
    }
    value
}

// A change of an entry of a site or of a schedule.
#[derive(Clone, Copy, PartialEq, Eq, Debug)]
pub struct Change {
    pub field: usize,
    pub index: usize,
    pub value: usize,
}

// The decimal numbers of a line, one after the other.
#[derive(Clone, Copy)]
pub struct Numbers<'a> {
    pub line: &'a [u8],
    pub at: usize,
}

impl<'a> Numbers<'a> {
    pub fn of(line: &'a [u8]) -> Numbers<'a>
        ensures { (result.line.now ≡ line.now) × (result.at ≡ 0) }
    {
        Numbers { line, at: 0 }
    }

    // The next number of the line.
    pub fn next(&mut self) -> Option<usize>
        ensures line { self.new.line.now ≡ self.old.line.now }
        ensures behind { self.new.at ≡ (number_from self.old.line.now self.old.at).next }
        ensures value { result ≡ number_told (number_from self.old.line.now self.old.at) }
    {
        let Some(first) = scan(self.line, self.at, true) else {
            self.at = self.line.len();
            return None;
        };
        let end = scan(self.line, first, false).unwrap_or(self.line.len());
        self.at = end;
        Some(value_of(&self.line[first..end]))
    }

    // The change that the next three numbers ask for; where the line has not so many, those that it has, and 0 for the others.
    #[tactic(auto, using(crate::proofs::Laws::Lines::changing))]
    pub fn next_change(&mut self) -> Result<Change, Change>
        ensures line { self.new.line.now ≡ self.old.line.now }
        ensures behind { self.new.at ≡ (change_from self.old.line.now self.old.at).next }
        ensures value { result ≡ change_told (change_from self.old.line.now self.old.at) }
    {
        let field = self.next();
        let index = self.next();
        let value = self.next();
        let change = Change {
            field: field.unwrap_or(0),
            index: index.unwrap_or(0),
            value: value.unwrap_or(0),
        };
        if value.is_none() {
            return Err(change);
        }
        Ok(change)
    }
}

// A line may give a number that is too large for what it is used for: the low bits are taken.
pub fn low8(value: usize) -> u8
    ensures { result ≡ value % 256 }
{
    (value % 256) as u8
}

pub fn low16(value: usize) -> u16
    ensures { result ≡ value % 65536 }
{
    (value % 65536) as u16
}

// Byte i is 100 + i, so that every byte that a writer leaves alone can be told.
#[tactic(auto, using(crate::proofs::Laws::Marks::marking))]
pub fn numbered() -> [u8; 64]
    ensures { result ≡ numbered_bytes }
{
    let mut out = [0; 64];
    for i in 0..64 {
        out[usize::from(i)] = 100 + i;
    }
    out
}

// A writer's answer: the number of bytes, or the refusal.
#[tactic(auto, unfolding(text::specs::Put::puts, crate::specs::Printed::written_text))]
pub fn put_written(page: &mut Page, name: &[u8], written: Result<usize, Refusal>)
    ensures { Adds page.old page.new (written_text name.now (outcome written)) }
{
    page.put(name);
    page.put(b" ");
    match written {
        Ok(size) => page.put_decimal(size as u64),
        Err(refusal) => report_lines::put_refusal(page, refusal.fault.number(), refusal.place),
    }
}

// A writer's answer, and what the slice holds then.
#[tactic(auto, using(text::proofs::Laws::Put::puts_append), unfolding(text::specs::Put::puts, crate::specs::Printed::left_text))]
pub fn put_left(page: &mut Page, name: &[u8], written: Result<usize, Refusal>, bytes: &[u8])
    ensures { Adds page.old page.new (left_text name.now (outcome written) bytes.now) }
{
    put_written(page, name, written);
    page.put(b":");
    hexadecimal::put_hex(page, bytes);
}

// Prints what is put on the page as a line; answers how many bytes it handed over, none without room for the newline.
#[tactic(auto, unfolding(text::specs::Put::puts, crate::specs::Printed::line_shown))]
pub fn print_line(page: &mut Page) -> usize
    ensures same_space { page.new.space.ghost_name ≡ page.old.space.ghost_name }
    ensures shown { (result, page.new.space.now) ≡ line_shown (held page.old) }
{
    page.put(b"\n");
    printing::print_page(page)
}
