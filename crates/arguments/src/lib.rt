// The words of a program's command line, and the file that one of them names. No contract can say which words there are or what a file holds: the system tells
// that, and std's own contracts say only how much of the space is filled.
#![tactic(auto)]

ghost use Rattle.std.specs.Prelude.{◌≤◌, length};
ghost use Rattle.std.specs.Option.{IfSome};

use std::env::{Env, FillError};
use std::os::fd::AsRawFd;
use std::{fs, str};

// Puts the word at this place at the front of the space and answers its length: 0 for one of more bytes than there is room for, none where there is no word.
// The word at 0 is the name of the program.
pub fn put_word(rt: &impl Env, at: usize, space: &mut [u8]) -> Option<usize>
    ensures { IfSome result (λ size. size ≤ length space.new) }
{
    match rt.arg(at, space) {
        Ok(size) => Some(size),
        Err(FillError::TooLong) => Some(0),
        Err(FillError::NotPresent) => None,
    }
}

pub fn has_word(rt: &impl Env, at: usize) -> bool {
    put_word(rt, at, &mut [0u8; 1]).is_some()
}

// Whether the name of the program is the only word.
pub fn stands_alone(rt: &impl Env) -> bool {
    has_word(rt, 0) && !has_word(rt, 1)
}

// Reads the front of the file, as much as the space holds, and closes it. A name that is not UTF-8 counts as one of no file, since a path of std is text.
pub fn read_front(rt: &HostRuntime, path: &[u8], space: &mut [u8]) -> Option<usize>
    ensures { IfSome result (λ size. size ≤ length space.new) }
{
    let text = str::from_utf8(path).ok()?;
    let file = fs::open(rt, text).ok()?;
    Some(io::read_full(file.as_raw_fd(), space))
}
