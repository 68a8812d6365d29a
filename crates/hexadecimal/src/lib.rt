// Bytes put on a page as hexadecimal digits.
#![tactic(auto, unfolding(text::specs::Put::puts))]

ghost use Rattle.std.specs.Prelude.{◌≡◌, ◌<◌, [], ◌∷◌};
ghost use Rattle.text.specs.Page.{Adds};
ghost use Rattle.text.specs.Listed.{each};
ghost use Rattle.hexadecimal.specs.Hexadecimal.{hex_digit, hex_of, spaced_hex, hex_text};

use text::Page;

#[tactic(auto, unfolding(crate::specs::Hexadecimal::hex_digit))]
fn glyph(digit: u8) -> u8
    requires { digit < 16 }
    ensures { result ≡ hex_digit digit }
{
    match digit {
        0..=9 => b'0' + digit,
        _ => b'A' + (digit - 10),
    }
}

#[tactic(auto, unfolding(text::specs::Put::puts, crate::specs::Hexadecimal::hex_of))]
fn put_byte(page: &mut Page, byte: u8)
    ensures { Adds page.old page.new (hex_of byte ∷ []) }
{
    let high = glyph(byte / 16);
    let low = glyph(byte % 16);
    page.put(&[high, low]);
}

// Puts each byte as a space and two hexadecimal digits.
#[tactic(auto, using(text::proofs::Laws::Listed::each_more, text::proofs::Laws::Put::puts_append), unfolding(text::specs::Put::puts, text::specs::Listed::each, crate::specs::Hexadecimal::spaced_hex))]
pub fn put_hex(page: &mut Page, bytes: &[u8])
    ensures { Adds page.old page.new (each spaced_hex bytes.now) }
{
    for byte in bytes {
        page.put(b" ");
        put_byte(page, *byte);
    }
}

// Puts the bytes as 01 shows them: two hexadecimal digits each, with a space between.
#[tactic(auto, unfolding(text::specs::Put::puts, crate::specs::Hexadecimal::hex_text))]
pub fn put_bytes(page: &mut Page, bytes: &[u8])
    ensures { Adds page.old page.new (hex_text bytes.now) }
{
    if let Some((first, others)) = bytes.split_first() {
        put_byte(page, *first);
        put_hex(page, others);
    }
}
