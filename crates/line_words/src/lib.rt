// Words of a line, and the decimal numbers among them.
#![tactic(auto)]

ghost use Rattle.std.specs.Prelude.{ℕ, ◌≤◌, ◌<◌, ◌≡◌, cond, length, drop, slice_index, Bool, Some, None, IfSome, MatchResult};
ghost use Rattle.text.specs.Decimal.{value_of, is_number};
ghost use Rattle.line_words.specs.Parts.{is, FoundFrom};
ghost use Rattle.line_words.specs.Words.{is_blank, is_letter, words_of, none, said, misfit, operand_of, operand_at, operand_told, FoundWord};

// A word from the index of its first byte to the index behind its last.
#[derive(Clone, Copy, PartialEq, Eq, Debug)]
pub struct Word {
    pub start: usize,
    pub end: usize,
}

// A number that is a word of a line, and the index behind that word.
#[derive(Clone, Copy, PartialEq, Eq, Debug)]
pub struct Operand {
    pub value: u32,
    pub next: usize,
}

// The index of the first byte from `from` on that passes the test.
fn find_by<F: Fn(u8) -> bool>(text: &[u8], from: usize, test: F) -> Option<usize>
    requires { F.IsAlwaysCallable test }
    ensures { (mark : ℕ → Bool) → ((byte : ℕ) (b : Bool) → F.post test byte b → b ≡ mark byte) → FoundFrom mark text.now from result }
{
    for at in from..text.len() {
        if test(text[at]) {
            return Some(at);
        }
    }
    None
}

// The index of the first such byte from `from` on.
pub fn find(text: &[u8], from: usize, byte: u8) -> Option<usize>
    ensures { FoundFrom (is byte) text.now from result }
{
    find_by(text, from, |other| other == byte)
}

#[tactic(auto, unfolding(crate::specs::Words::is_blank))]
fn is_blank(byte: u8) -> bool
    ensures { result ≡ is_blank byte }
{
    matches!(byte, b' ' | b'\t' | b'\r')
}

fn is_letter(byte: u8) -> bool
    ensures { result ≡ is_letter byte }
{
    !is_blank(byte)
}

// The first word from `from` on.
pub fn next_word(line: &[u8], from: usize) -> Option<Word>
    ensures { FoundWord line.now from result }
{
    let start = find_by(line, from, is_letter)?;
    let end = find_by(line, start, is_blank).unwrap_or(line.len());
    Some(Word { start, end })
}

// Whether no word stands from `from` on.
pub fn blank(line: &[u8], from: usize) -> bool
    ensures { result ≡ none (words_of (drop from line.now)) }
{
    find_by(line, from, is_letter).is_none()
}

// The number of a word that is made of decimal digits alone, if it is at most `most`.
pub fn read_number(word: &[u8], most: u32) -> Option<u32>
    ensures { result ≡ cond (is_number word.now most) (Some (value_of word.now)) None }
{
    let mut value: u64 = 0;
    for byte in word {
        if !byte.is_ascii_digit() {
            return None;
        }
        value = value * 10 + u64::from(*byte - b'0');
        if u64::from(most) < value {
            return None;
        }
    }
    (0 < word.len()).then_some(value as u32)
}

// The next word as a number of at most `most`. Where it is none, no operand can follow either.
pub fn next_operand(line: &[u8], from: usize, most: u32) -> Option<Operand>
    ensures { (operand_told line.now result ≡ operand_of (words_of (drop from line.now)) most)
        × IfSome result (λ o. (o.value ≤ most) × (o.next ≤ length line.now)) × (result ≡ operand_at line.now from most) }
{
    let word = next_word(line, from)?;
    let value = read_number(&line[word.start..word.end], most)?;
    Some(Operand {
        value,
        next: word.end,
    })
}

// The operands from `from` on, one for each limit and at most that, with nothing behind them; or the index of the first word among them that is wrong.
pub fn read_operands<const N: usize>(
    line: &[u8],
    from: usize,
    limits: &[u32; N],
) -> Result<[u32; N], usize>
    ensures { MatchResult result
        (λ values. (misfit limits.now (words_of (drop from line.now)) 0 ≡ None)
        × ((k : ℕ) → k < N → (slice_index values k ≡ said (words_of (drop from line.now)) k) × (slice_index values k ≤ slice_index limits.now k)))
        (λ index. (misfit limits.now (words_of (drop from line.now)) 0 ≡ Some index) × (index ≤ N)) }
{
    let mut values = [0u32; N];
    let mut next = from;
    for (i, most) in limits.iter().enumerate() {
        let Some(operand) = next_operand(line, next, *most) else {
            return Err(i);
        };
        values[i] = operand.value;
        next = operand.next;
    }
    if !blank(line, next) {
        return Err(N);
    }
    Ok(values)
}
