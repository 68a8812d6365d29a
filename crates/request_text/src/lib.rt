// What a planner's line asks for by its name and the numbers behind it: every line but that of a slot.
#![tactic(auto, using(crate::proofs::Laws::Operands::numbers_all, crate::proofs::Laws::Operands::numbers_not), unfolding(crate::specs::Requests::lone_of, crate::specs::Requests::admit_line, crate::specs::Requests::release_line, crate::specs::Requests::sender_line, crate::specs::Requests::flow_question, crate::specs::Requests::other_of))]

ghost use Rattle.std.specs.Prelude.{◌≡◌, drop};
ghost use Rattle.line_words.specs.Words.{words_of};
ghost use Rattle.request_text.specs.Requests.{lone_of, admit_line, release_line, sender_line, flow_question, other_of};

use line_words::{blank, read_operands};
use site::Flow;
use slices::same;

// A call that may change the site or the counters, with its operands; the arrivals of a slot stand beside it.
#[derive(Clone, Copy, PartialEq, Eq, Debug)]
pub enum Call {
    Start,
    Slot(u32),
    Admit(Flow),
    Release(u8),
}

// What can be shown of the site and the counters as they are.
#[derive(Clone, Copy, PartialEq, Eq, Debug)]
pub enum Question {
    Sender(u8, u32),
    Cells(u8),
    Bound(u8),
    Plan,
    Schedule,
    Show,
    Typed,
}

// A line that is not passed over makes a call, asks a question or is malformed.
#[derive(Clone, Copy, PartialEq, Eq, Debug)]
pub enum Line {
    PassedOver,
    Makes(Call),
    Asks(Question),
    Malformed,
}

// `start`, `plan`, `schedule`, `show` and `typed` have no operands.
fn lone_line(name: &[u8]) -> Line
    ensures { result ≡ lone_of name.now }
{
    if same(name, b"start") {
        return Line::Makes(Call::Start);
    }
    if same(name, b"plan") {
        return Line::Asks(Question::Plan);
    }
    if same(name, b"schedule") {
        return Line::Asks(Question::Schedule);
    }
    if same(name, b"show") {
        return Line::Asks(Question::Show);
    }
    if same(name, b"typed") {
        return Line::Asks(Question::Typed);
    }
    Line::Malformed
}

fn admit_line(line: &[u8], from: usize) -> Line
    ensures { result ≡ admit_line (words_of (drop from line.now)) }
{
    let Ok(operands) = read_operands(line, from, &[255, 255, 255, 65535]) else {
        return Line::Malformed;
    };
    let [number, entry, rate, deadline] = operands;
    Line::Makes(Call::Admit(Flow {
        number: number as u8,
        entry: entry as u8,
        rate: rate as u8,
        deadline: deadline as u16,
    }))
}

// A number that is released may be any of 8 bits: the library judges it.
fn release_line(line: &[u8], from: usize) -> Line
    ensures { result ≡ release_line (words_of (drop from line.now)) }
{
    let Ok(operands) = read_operands(line, from, &[255]) else {
        return Line::Malformed;
    };
    let [number] = operands;
    Line::Makes(Call::Release(number as u8))
}

fn sender_line(line: &[u8], from: usize) -> Line
    ensures { result ≡ sender_line (words_of (drop from line.now)) }
{
    let Ok(operands) = read_operands(line, from, &[255, 4294967295]) else {
        return Line::Malformed;
    };
    let [parent, slot] = operands;
    Line::Asks(Question::Sender(parent as u8, slot))
}

// `cells` and `bound` have one operand, which is one of the 64 flow numbers.
fn flow_line(name: &[u8], line: &[u8], from: usize) -> Line
    ensures { result ≡ flow_question name.now (words_of (drop from line.now)) }
{
    let Ok(operands) = read_operands(line, from, &[63]) else {
        return Line::Malformed;
    };
    let [flow] = operands;
    if same(name, b"cells") {
        return Line::Asks(Question::Cells(flow as u8));
    }
    if same(name, b"bound") {
        return Line::Asks(Question::Bound(flow as u8));
    }
    Line::Malformed
}

// A line of any name but `slot`, whose operands stand from `from` on.
pub fn read_request(name: &[u8], line: &[u8], from: usize) -> Line
    ensures { result ≡ other_of name.now (words_of (drop from line.now)) }
{
    if blank(line, from) {
        return lone_line(name);
    }
    if same(name, b"admit") {
        return admit_line(line, from);
    }
    if same(name, b"release") {
        return release_line(line, from);
    }
    if same(name, b"sender") {
        return sender_line(line, from);
    }
    flow_line(name, line, from)
}
