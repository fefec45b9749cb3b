// Messages read from standard input: NIST's examples for FIPS 180-4 of 448 and 896 bits, runs of one byte, and those of the CAVP (CAVS
// 11.0, SHA256, SHA384 and SHA512, ShortMsg and LongMsg) that are of whole words: all of the short ones, two of the long. A line of three
// digits gives the bits of the digests behind it; any other is a message in hexadecimal. Where a line is neither, or a message has bits
// that no hash has, the program says so and reads no further; it says so, too, where the input fills the buffer.
ghost use Rattle.std.specs.Prelude.{true, ℕ, ◌-◌, ◌++◌, ◌≡◌, ◌/◌, ◌^◌, ◌<◌, ◌≤◌, Option, length, replicate, is_ok};
ghost use Rattle.vectors.specs.Hexadecimal.{digit_value, all_digits, number, words_of};
ghost use Rattle.vectors.specs.Input.{bits_of, is_message, next, is_input};
ghost use Rattle.vectors.specs.Reading.{hash_of, told};

use crate::running::{Sha256, Sha384, Sha512};
use crate::{running, scan};
use std::io;

// The hashes whose messages are read.
#[derive(Clone, Copy)]
enum Hash {
    Sha256,
    Sha384,
    Sha512,
}

// A line, or a text, that can't be read.
#[derive(Clone, Copy)]
struct Unreadable;

// The most words of a message.
const ROOM: usize = 256;

// The value of a digit in lower case: None of another byte.
fn digit(c: u8) -> Option<usize>
    ensures { result ≡ digit_value c }
{
    scan::find(b"0123456789abcdef", c)
}

fn all_digits(text: &[u8]) -> bool
    ensures { result ≡ all_digits text.now }
{
    text.iter().all(|c| digit(*c).is_some())
}

// The number that at most eight digits make.
fn number(text: &[u8]) -> u32
    requires { (length text.now ≤ 8) × (all_digits text.now ≡ true) }
    ensures { (result ≡ number text.now) × (result < 16 ^ length text.now) }
{
    let mut value = 0;
    for c in text {
        value = value * 16 + digit(*c).unwrap() as u32;
    }
    value
}

// Whether a line is a message: whole words, in hexadecimal, for which there is room.
fn is_message(line: &[u8]) -> bool
    ensures { result ≡ is_message line.now }
{
    line.len() % 8 == 0 && line.len() / 8 <= ROOM && all_digits(line)
}

// The words of a message, eight digits to a word, and then zeros.
fn read_words(text: &[u8]) -> [u32; ROOM]
    requires { is_message text.now ≡ true }
    ensures { result ≡ (let n = length text.now / 8 in words_of text.now n ++ replicate (256 - n) 0) }
{
    let mut words = [0u32; ROOM];
    let (eights, _) = text.as_chunks::<8>();
    for (i, eight) in eights.iter().enumerate() {
        words[i] = number(eight);
    }
    words
}

// A line for the words of a message. What is printed no contract says: it is compared with the file stdout. Nor does a line that can't be
// written change what is read.
fn show_message<R: Print>(rt: &R, hash: Hash, text: &[u8])
    requires { is_message text.now ≡ true }
{
    let room = read_words(text);
    let words = &room[..text.len() / 8];
    let _ = match hash {
        Hash::Sha256 => running::show::<8, Sha256, R>(rt, b"input-", words),
        Hash::Sha384 => running::show::<12, Sha384, R>(rt, b"input-", words),
        Hash::Sha512 => running::show::<16, Sha512, R>(rt, b"input-", words),
    };
}

// The hash that has digests of the bits, read in hexadecimal, if one has.
#[tactic(auto, unfolding(crate::specs::Reading::hash_of))]
fn hash_of(bits: u32) -> Option<Hash>
    ensures { result ≡ hash_of bits }
{
    match bits {
        0x256 => Some(Hash::Sha256),
        0x384 => Some(Hash::Sha384),
        0x512 => Some(Hash::Sha512),
        _ => None,
    }
}

// The hash of the bits that three digits give.
fn read_bits(text: &[u8]) -> Result<Option<Hash>, Unreadable>
    requires { length text.now ≡ 3 }
    ensures { result ≡ told (bits_of text.now) }
{
    if !all_digits(text) {
        return Err(Unreadable);
    }
    Ok(hash_of(number(text)))
}

// The hash of the messages behind a line, where that of those before it is as given. A message is shown.
fn next<R: Print>(rt: &R, hash: Option<Hash>, line: &[u8]) -> Result<Option<Hash>, Unreadable>
    ensures { (bits : ℕ) → hash ≡ hash_of bits → result ≡ told (next bits line.now) }
{
    if line.len() == 3 {
        return read_bits(line);
    }
    if !is_message(line) {
        return Err(Unreadable);
    }
    let Some(known) = hash else {
        return Err(Unreadable);
    };
    show_message(rt, known, line);
    Ok(hash)
}

// The lines of a text, up to the first that can't be read: an error where there is one, or where the text fills the buffer it was read to.
fn show_lines<R: Print>(rt: &R, text: &[u8]) -> Result<(), Unreadable>
    ensures { is_ok result ≡ is_input text.now }
{
    let mut hash = None;
    let mut from = 0;
    // Kept: for a `for` over `split_inclusive` in a function with a type parameter the check makes a module that it then refuses.
    while from < text.len() {
        let left = &text[from..];
        let end = from + scan::find(left, b'\n').unwrap_or(left.len());
        hash = next(rt, hash, &text[from..end])?;
        from = end + 1;
    }
    if text.len() < 65536 {
        Ok(())
    } else {
        Err(Unreadable)
    }
}

pub fn show<R: Input + Print>(rt: &R) -> io::Result<()> {
    let mut buf = [0u8; 65536];
    let n = files::fill(&mut rt.reader(), &mut buf);
    if show_lines(rt, &buf[..n]).is_err() {
        println!(rt; "standard input can't be read")?;
    }
    Ok(())
}
