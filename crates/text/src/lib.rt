// Text put into a borrowed space piece by piece: words and decimal numbers.
#![tactic(auto, unfolding(crate::specs::Put::puts))]

ghost use Rattle.std.specs.Prelude.{◌≡◌, [], ◌∷◌};
ghost use Rattle.text.specs.Page.{Adds, held, shown};
ghost use Rattle.text.specs.Decimal.{decimal};
ghost use Rattle.text.specs.Listed.{each, spaced_decimal};

// A borrowed space, of which the first bytes are taken: text is put behind these.
#[derive(Drop)]
pub struct Page<'a> {
    pub space: &'a mut [u8],
    pub taken: usize,
}

impl<'a> Page<'a> {
    pub fn over(space: &'a mut [u8]) -> Page<'a>
        ensures same_space { result.space.ghost_name ≡ space.entry.ghost_name }
        ensures empty { held result ≡ (0, space.old) }
    {
        Page { space, taken: 0 }
    }

    // The same where bytes are taken already.
    pub fn behind(space: &'a mut [u8], taken: usize) -> Page<'a>
        ensures same_space { result.space.ghost_name ≡ space.entry.ghost_name }
        ensures begun { held result ≡ (taken, space.old) }
    {
        Page { space, taken }
    }

    // What is put on it, nothing where there was no room for a piece.
    #[tactic(auto, unfolding(crate::specs::Page::shown))]
    pub fn text(&self) -> &[u8]
        ensures { result.now ≡ shown (held self.now) }
    {
        self.space.get(..self.taken).unwrap_or(&[])
    }

    pub fn put(&mut self, word: &[u8])
        ensures { Adds self.old self.new (word.now ∷ []) }
    {
        self.taken = slices::put(self.space, self.taken, word);
    }

    // No number of 64 bits has more than 20 digits.
    pub fn put_decimal(&mut self, value: u64)
        ensures { Adds self.old self.new (decimal value ∷ []) }
    {
        let mut digits = [0u8; 20];
        let n = io::decimal(value, &mut digits);
        self.put(&digits[..n]);
    }

    pub fn put_field(&mut self, name: &[u8], value: u64)
        ensures { Adds self.old self.new (name.now ∷ decimal value ∷ []) }
    {
        self.put(name);
        self.put_decimal(value);
    }

    // Puts each number with a space before it.
    #[tactic(auto, using(crate::proofs::Laws::Listed::each_more, crate::proofs::Laws::Put::puts_append), unfolding(crate::specs::Put::puts, crate::specs::Listed::each, crate::specs::Listed::spaced_decimal))]
    pub fn put_numbers(&mut self, numbers: &[u32])
        ensures { Adds self.old self.new (each spaced_decimal numbers.now) }
    {
        for number in numbers {
            self.put_field(b" ", u64::from(*number));
        }
    }
}
