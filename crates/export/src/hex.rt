// Words in hexadecimal, eight digits each.
ghost use Rattle.std.specs.Prelude.{◌≡◌, ◌+◌, ◌*◌, ◌%◌, ◌≤◌, length};
ghost use Rattle.exporting.specs.Export.{word_digits, hex_digit, hex_word, hex_words};
ghost use Rattle.text.specs.Put.{Writes};

use text::writer::Writer;

// Digits of a word.
pub const DIGITS: usize = 8;

// The sixteen digits.
const HEX: &[u8; 16] = b"0123456789abcdef";

// The last digit of a number.
fn digit(n: u32) -> u8
    ensures { result ≡ hex_digit (n % 16) }
{
    HEX[(n % 16) as usize]
}

// Writes the digits of a word, the high one first, over eight bytes.
fn put_word(out: &mut [u8], w: u32)
    requires { length out.old ≡ word_digits }
    ensures { out.new ≡ hex_word w }
{
    out[0] = digit(w >> 28);
    out[1] = digit(w >> 24);
    out[2] = digit(w >> 20);
    out[3] = digit(w >> 16);
    out[4] = digit(w >> 12);
    out[5] = digit(w >> 8);
    out[6] = digit(w >> 4);
    out[7] = digit(w);
}

// Words, one behind the other. The writer's place moves once, behind them all: handed to `Writer::bytes` word by word, their digits took a
// seventh more instructions, and the export missed its bar of speed (docs/DESIGN-PASS.md).
pub fn put_words(out: &mut Writer, words: &[u32])
    requires { out.old.at + word_digits * length words.now ≤ length out.old.out.now }
    ensures { Writes out.old (hex_words words.now) out.new }
{
    let mut at = out.at;
    for word in words {
        put_word(&mut out.out[at..at + DIGITS], *word);
        at += DIGITS;
    }
    out.at = at;
}
