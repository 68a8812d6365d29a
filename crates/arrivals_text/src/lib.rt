// The words N=K of a slot's line: K packets of flow N.
#![tactic(auto)]

ghost use Rattle.std.specs.Prelude.{◌≡◌, ◌<◌, drop, IfSome};
ghost use Rattle.line_words.specs.Words.{words_of};
ghost use Rattle.arrivals_text.specs.Counts.{arrivals_of};
ghost use Rattle.arrivals_text.specs.Inner.{arrival_of, arrivals_told};

use line_words::{find, next_word, read_number};

// N and K of a word N=K.
fn read_arrival(word: &[u8]) -> Option<(usize, u16)>
    ensures { (result ≡ arrival_of word.now) × IfSome result (λ arrival. arrival.0 < 64) }
{
    let sign = find(word, 0, b'=')?;
    let flow = read_number(&word[..sign], 63)?;
    let count = read_number(&word[sign + 1..], 65535)?;
    Some((flow as usize, count as u16))
}

// The packets that the words from `from` on give, by flow number, if each is of the form N=K and names a flow of its own.
pub fn read_arrivals(line: &[u8], from: usize) -> Option<[u16; 64]>
    ensures { arrivals_told result ≡ arrivals_of (words_of (drop from line.now)) }
{
    let mut counts = [0u16; 64];
    let mut named = [false; 64];
    let mut at = from;
    while let Some(word) = next_word(line, at) {
        let (flow, count) = read_arrival(&line[word.start..word.end])?;
        if named[flow] {
            return None;
        }
        named[flow] = true;
        counts[flow] = count;
        at = word.end;
    }
    Some(counts)
}
