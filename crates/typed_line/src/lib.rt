// One line of a typed plan, `node PARENT CAPACITY GAP` or `flow NUMBER NODE RATE DEADLINE`. No rule of 01 is judged but that each number fits its operand.
#![tactic(auto)]

ghost use Rattle.std.specs.Prelude.{◌≡◌, drop};
ghost use Rattle.line_words.specs.Words.{words_of};
ghost use Rattle.typed_line.specs.Lines.{node_said, flow_said, command_of, typed_line, typed, typed_command};

use line_words::{find, next_word, read_operands};
use slices::same;

// What the first word of a line can name.
#[derive(Clone, Copy, PartialEq, Eq, Debug)]
pub enum Kind {
    Node,
    Flow,
}

// A command with its operands.
#[derive(Clone, Copy, PartialEq, Eq, Debug)]
pub enum Command {
    Node {
        parent: u8,
        capacity: u16,
        gap: u16,
    },
    Flow {
        number: u8,
        entry: u8,
        rate: u8,
        deadline: u16,
    },
}

// Why a line is no command: what it names, if anything, and the place of its first wrong word, of which the name has 1.
#[derive(Clone, Copy, PartialEq, Eq, Debug)]
pub struct Mistake {
    pub named: Option<Kind>,
    pub place: usize,
}

#[tactic(auto, using(crate::proofs::Laws::Operands::fits, crate::proofs::Laws::Operands::fails), unfolding(crate::specs::Lines::node_said))]
fn node_line(line: &[u8], from: usize) -> Result<Command, Mistake>
    ensures { typed_command result ≡ node_said (words_of (drop from line.now)) }
{
    let operands = match read_operands(line, from, &[255, 65535, 65535]) {
        Ok(operands) => operands,
        Err(index) => {
            return Err(Mistake {
                named: Some(Kind::Node),
                place: index + 2,
            });
        }
    };
    let [parent, capacity, gap] = operands;
    Ok(Command::Node {
        parent: parent as u8,
        capacity: capacity as u16,
        gap: gap as u16,
    })
}

#[tactic(auto, using(crate::proofs::Laws::Operands::fits, crate::proofs::Laws::Operands::fails), unfolding(crate::specs::Lines::flow_said))]
fn flow_line(line: &[u8], from: usize) -> Result<Command, Mistake>
    ensures { typed_command result ≡ flow_said (words_of (drop from line.now)) }
{
    let operands = match read_operands(line, from, &[255, 255, 255, 65535]) {
        Ok(operands) => operands,
        Err(index) => {
            return Err(Mistake {
                named: Some(Kind::Flow),
                place: index + 2,
            });
        }
    };
    let [number, entry, rate, deadline] = operands;
    Ok(Command::Flow {
        number: number as u8,
        entry: entry as u8,
        rate: rate as u8,
        deadline: deadline as u16,
    })
}

fn read_command(line: &[u8]) -> Result<Option<Command>, Mistake>
    ensures { typed result ≡ command_of (words_of line.now) }
{
    let Some(word) = next_word(line, 0) else {
        return Ok(None);
    };
    let name = &line[word.start..word.end];
    if same(name, b"node") {
        return node_line(line, word.end).map(Some);
    }
    if same(name, b"flow") {
        return flow_line(line, word.end).map(Some);
    }
    Err(Mistake {
        named: None,
        place: 1,
    })
}

// What a line says: a command, or nothing. A comment begins with `#` and ends with the line.
pub fn read_line(line: &[u8]) -> Result<Option<Command>, Mistake>
    ensures { typed result ≡ typed_line line.now }
{
    let end = find(line, 0, b'#').unwrap_or(line.len());
    read_command(&line[..end])
}
