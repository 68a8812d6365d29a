// Plans typed as text, `node PARENT CAPACITY GAP` and `flow NUMBER NODE RATE DEADLINE` on a line each, turned into plan bytes. No rule of 01 is judged but
// that each number fits its operand.
#![tactic(auto)]

mod plans;

ghost use Rattle.std.specs.Prelude.{◌≡◌};
ghost use Rattle.typed_plan.specs.Assemble.{assembled, assembled_of};

use plans::{check, put_plan};
use typed_line::Mistake;

// Why no plan is stored: the number of a wrong line and what is wrong with it; a slice without room; or a text that is too long.
#[derive(Clone, Copy, PartialEq, Eq, Debug)]
pub enum AssembleError {
    WrongLine { line: usize, mistake: Mistake },
    NoRoom,
    TooLong,
}

// The number of bytes stored. All lines are judged before a byte is, so that every error leaves the slice.
pub fn assemble(text: &[u8], out: &mut [u8]) -> Result<usize, AssembleError>
    ensures { (assembled result, out.new) ≡ assembled_of text.now out.old }
{
    if 65535 < text.len() {
        return Err(AssembleError::TooLong);
    }
    let size = check(text)?;
    if out.len() < size {
        return Err(AssembleError::NoRoom);
    }
    put_plan(text, out);
    Ok(size)
}
