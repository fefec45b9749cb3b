// Runs test messages through the hashes and prints each digest: of words that count up, of each length, whole and cut in the middle, and of
// one length cut at each place, of a million times "a", and of the messages of standard input. The file stdout has the digests from
// elsewhere: those of the CAVP's messages are its own (MD), the others are of Python's hashlib. Only messages of whole words of 32 bits:
// "abc" and other messages of bytes are theorems about the definitions, in crate `standard`.
#![tactic(auto)]

mod input;
mod lines;
mod messages;
mod running;
mod scan;

ghost use Rattle.std.specs.Prelude.{◌<◌, ◌≤◌, length};

use running::{RunningHash, Sha256, Sha384, Sha512};
use std::io;

// The lines of each length from 0 to 65 words, one more than two blocks of SHA-512 hold.
fn show_counting<R: Print>(rt: &R) -> io::Result<()> {
    let m = messages::counting_words();
    for n in 0..=65 {
        show(rt, &m[..n])?;
    }
    Ok(())
}

fn show<R: Print>(rt: &R, words: &[u32]) -> io::Result<()>
    requires { length words.now ≤ 65 }
{
    running::show::<8, Sha256, R>(rt, b"", words)?;
    running::show::<12, Sha384, R>(rt, b"", words)?;
    running::show::<16, Sha512, R>(rt, b"", words)?;
    show_cut(rt, b"middle-", words.len(), words, words.len() / 2)
}

// The lines of each place to cut 65 words at.
fn show_pieces<R: Print>(rt: &R) -> io::Result<()> {
    let m = messages::counting_words();
    for at in 0..=65 {
        show_cut(rt, b"cut-", at, &m, at)?;
    }
    Ok(())
}

// The words up to the place, nothing, and the rest, fed to the running hashes.
fn show_cut<R: Print>(rt: &R, kind: &[u8], n: usize, words: &[u32], at: usize) -> io::Result<()>
    requires { length words.now ≤ 65 }
{
    let places = [at, at];
    lines::show(
        rt,
        kind,
        n,
        &running::in_pieces::<8, Sha256>(words, &places),
    )?;
    lines::show(
        rt,
        kind,
        n,
        &running::in_pieces::<12, Sha384>(words, &places),
    )?;
    lines::show(
        rt,
        kind,
        n,
        &running::in_pieces::<16, Sha512>(words, &places),
    )
}

// A line for n times the word, named by a kind and their number.
fn show_repeated<const N: usize, H: RunningHash<N>, R: Print>(
    rt: &R,
    kind: &[u8],
    word: u32,
) -> io::Result<()>
    requires { 250000 < H.limit }
{
    let n = 250_000;
    lines::show(rt, kind, n, &running::repeated::<N, H>(word, n))
}

// A million bytes "a", and for SHA-256 as many zeros: named by the word, in hexadecimal, and the number of words.
fn show_millions<R: Print>(rt: &R) -> io::Result<()> {
    show_repeated::<8, Sha256, R>(rt, b"repeated-61616161-", 0x6161_6161)?;
    show_repeated::<8, Sha256, R>(rt, b"repeated-00000000-", 0)?;
    show_repeated::<12, Sha384, R>(rt, b"repeated-61616161-", 0x6161_6161)?;
    show_repeated::<16, Sha512, R>(rt, b"repeated-61616161-", 0x6161_6161)
}

fn main(rt: HostRuntime) -> io::Result<()> {
    show_counting(&rt)?;
    show_pieces(&rt)?;
    show_millions(&rt)?;
    input::show(&rt)
}
