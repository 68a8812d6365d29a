// Turns the typed plan on standard input into plan bytes on standard output, or tells its first wrong line on standard error.
#![tactic(auto)]

use text::Page;
use typed_line::{Kind, Mistake};
use typed_plan::AssembleError;

fn sentence(mistake: Mistake) -> &'static [u8] {
    match (mistake.named, mistake.place) {
        (None, _) => b"neither node nor flow",
        (Some(Kind::Node), 2) => b"PARENT must be a number from 0 to 255",
        (Some(Kind::Node), 3) => b"CAPACITY must be a number from 0 to 65535",
        (Some(Kind::Node), 4) => b"GAP must be a number from 0 to 65535",
        (Some(Kind::Flow), 2) => b"NUMBER must be a number from 0 to 255",
        (Some(Kind::Flow), 3) => b"NODE must be a number from 0 to 255",
        (Some(Kind::Flow), 4) => b"RATE must be a number from 0 to 255",
        (Some(Kind::Flow), 5) => b"DEADLINE must be a number from 0 to 65535",
        _ => b"a word too many",
    }
}

fn tell_line(line: usize, mistake: Mistake) {
    let mut told = [0u8; 128];
    let mut page = Page::over(&mut told);
    page.put_field(b"line ", line as u64);
    page.put(b": ");
    page.put(sentence(mistake));
    page.put(b"\n");
    io::write_all(2, page.text());
}

fn finish(assembled: Result<usize, AssembleError>, plan: &[u8]) {
    match assembled {
        Ok(size) => {
            if size <= plan.len() {
                io::write_all(1, &plan[..size]);
            }
        }
        Err(AssembleError::WrongLine { line, mistake }) => tell_line(line, mistake),
        Err(AssembleError::NoRoom) => {}
        Err(AssembleError::TooLong) => {
            io::write_all(2, b"assemble: more than 65535 bytes\n");
        }
    }
}

// A text of 65,536 bytes is too long already. The plan of any shorter one has at most 393,217 bytes: this is the law `plan_short` of crate `typed_plan`.
fn main(rt: HostRuntime) {
    if !arguments::stands_alone(&rt) {
        io::write_all(2, b"usage: assemble < TEXT > PLAN\n");
        return;
    }
    let mut text = io::large_buffer();
    let mut plan = [0u8; 393217];
    let n = io::read_full(0, &mut text);
    let assembled = typed_plan::assemble(&text[..n], &mut plan);
    finish(assembled, &plan);
}
