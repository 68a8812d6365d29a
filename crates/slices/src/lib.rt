// Bytes put into a borrowed slice, and two slices compared. What a writer answers is said in the definitions.
#![tactic(auto)]

ghost use Rattle.std.specs.Prelude.{◌≡◌, ◌+◌, ◌≤◌, ◌++◌, length, take, drop};
ghost use Rattle.slices.specs.Put.{put as put·};
ghost use Rattle.lists.specs.Lists.{same as same·};

// Apart from `put`, so that the test of room and the loop each have a function. Byte by byte: the compiled loop needs no name from outside but `memcpy`, where the
// library's copy of a slice would need `memmove` too.
fn store(out: &mut [u8], at: usize, word: &[u8])
    requires { at + length word.now ≤ length out.old }
    ensures { out.new ≡ take at out.old ++ word.now ++ drop (at + length word.now) out.old }
{
    for i in 0..word.len() {
        out[at + i] = word[i];
    }
}

// Puts the word behind the first `at` bytes, if there is room; answers how many are taken then, one more than there are without room.
pub fn put(out: &mut [u8], at: usize, word: &[u8]) -> usize
    ensures { (result, out.new) ≡ put· (at, out.old) word.now }
{
    let space = out.len();
    let size = word.len();
    if space < size {
        return space + 1;
    }
    if space - size < at {
        return space + 1;
    }
    store(out, at, word);
    at + size
}

// Names in typed text are compared byte by byte: a longer word is another one.
#[tactic(auto, using(lists::proofs::Laws::Equal::same_test))]
pub fn same(word: &[u8], name: &[u8]) -> bool
    ensures { result ≡ same· word.now name.now }
{
    word == name
}
