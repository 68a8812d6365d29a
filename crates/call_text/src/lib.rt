// What a line of a planner asks for.
#![tactic(auto)]

ghost use Rattle.std.specs.Prelude.{◌≡◌, eqb, get_or, drop};
ghost use Rattle.line_words.specs.Words.{words_of};
ghost use Rattle.call_text.specs.Lines.{alone, slot_line, asked_of};

use arrivals_text::read_arrivals;
use line_words::{next_operand, next_word};
use request_text::{Call, Line, read_request};
use slices::same;

// What a line asks for, and the arrivals of a slot by flow number: 64 zeros for anything else.
#[derive(Clone, Copy, PartialEq, Eq, Debug)]
pub struct Asked {
    pub line: Line,
    pub arrivals: [u16; 64],
}

#[tactic(auto, unfolding(crate::specs::Lines::alone))]
fn without_arrivals(line: Line) -> Asked
    ensures { result ≡ alone line }
{
    Asked {
        line,
        arrivals: [0; 64],
    }
}

// A line that begins with `#` is for its readers alone.
fn remark(line: &[u8]) -> bool
    ensures { result ≡ eqb (get_or line.now 0 0) 35 }
{
    matches!(line, [b'#', ..])
}

fn slot_line(line: &[u8], from: usize) -> Asked
    ensures { result ≡ slot_line (words_of (drop from line.now)) }
{
    let Some(slot) = next_operand(line, from, u32::MAX) else {
        return without_arrivals(Line::Malformed);
    };
    let Some(arrivals) = read_arrivals(line, slot.next) else {
        return without_arrivals(Line::Malformed);
    };
    Asked {
        line: Line::Makes(Call::Slot(slot.value)),
        arrivals,
    }
}

// What the line asks for. Its first word names it; without a word, or with `#` as its first byte, the line is passed over.
pub fn read_line(line: &[u8]) -> Asked
    ensures { result ≡ asked_of line.now }
{
    if remark(line) {
        return without_arrivals(Line::PassedOver);
    }
    let Some(word) = next_word(line, 0) else {
        return without_arrivals(Line::PassedOver);
    };
    let name = &line[word.start..word.end];
    if same(name, b"slot") {
        return slot_line(line, word.end);
    }
    without_arrivals(read_request(name, line, word.end))
}
