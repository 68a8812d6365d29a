// All lines of a typed plan.
ghost use Rattle.std.specs.Prelude.{◌≡◌, ◌≤◌, length, Ok};
ghost use Rattle.text.specs.Page.{Adds};
ghost use Rattle.text.specs.Put.{puts, text_of};
ghost use Rattle.line_words.specs.Parts.{lines_of};
ghost use Rattle.typed_line.specs.Lines.{command_said, typed, typed_line};
ghost use Rattle.typed_plan.specs.Assemble.{Length, piece_of, pieces_of, plan_typed, first_wrong, assembled};

use crate::AssembleError;
use format::END;
use plan_writer::{flow_command, node_command};
use text::Page;
use typed_line::{Command, read_line};

// 01: NODE and FLOW take six bytes each.
#[tactic(auto, using(crate::proofs::Laws::Plans::said_long), unfolding(crate::specs::Assemble::piece_of, text::specs::Put::text_of))]
fn command_size(command: Option<Command>) -> usize
    ensures { (result ≡ length (text_of (piece_of (typed (Ok command))))) × (result ≤ 6) }
{
    match command {
        Some(_) => 6,
        None => 0,
    }
}

// The size begins with the one byte of END. A text of at most 65,535 bytes has so few lines that no sum here is too large.
pub(crate) fn check(text: &[u8]) -> Result<usize, AssembleError>
    requires { length text.now ≤ 65535 }
    ensures { assembled result ≡ first_wrong (lines_of text.now) 1 (Length (length (plan_typed text.now))) }
{
    let mut size = 1;
    for (i, line) in text.split(|byte| *byte == b'\n').enumerate() {
        match read_line(line) {
            Ok(command) => size += command_size(command),
            Err(mistake) => {
                return Err(AssembleError::WrongLine {
                    line: i + 1,
                    mistake,
                });
            }
        }
    }
    Ok(size)
}

#[tactic(auto, unfolding(crate::specs::Assemble::piece_of, text::specs::Put::puts))]
fn put_command(page: &mut Page, command: Command)
    ensures { Adds page.old page.new (piece_of (command_said command)) }
{
    let bytes = match command {
        Command::Node {
            parent,
            capacity,
            gap,
        } => node_command(parent, capacity, gap),
        Command::Flow {
            number,
            entry,
            rate,
            deadline,
        } => flow_command(number, entry, rate, deadline),
    };
    page.put(&bytes);
}

#[tactic(auto, unfolding(crate::specs::Assemble::piece_of, text::specs::Put::puts))]
fn put_line(page: &mut Page, line: &[u8])
    ensures { Adds page.old page.new (piece_of (typed_line line.now)) }
{
    match read_line(line) {
        Ok(Some(command)) => put_command(page, command),
        Ok(None) => {}
        Err(_) => {}
    }
}

// Behind the commands stands END.
fn put_commands(page: &mut Page, text: &[u8])
    ensures { Adds page.old page.new (pieces_of (lines_of text.now)) }
{
    for line in text.split(|byte| *byte == b'\n') {
        put_line(page, line);
    }
    page.put(&[END]);
}

pub(crate) fn put_plan(text: &[u8], out: &mut [u8]) -> usize
    ensures { (result, out.new) ≡ puts (0, out.old) (pieces_of (lines_of text.now)) }
{
    let mut page = Page::over(out);
    put_commands(&mut page, text);
    page.taken
}
