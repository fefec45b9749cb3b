// Files read whole: the first bytes are kept, and all are counted. No contract can say what a call of the system read; the counts are
// bounded.
#![tactic(auto)]

ghost use Rattle.std.specs.Prelude.{◌≤◌, ◌^◌, length, take};
ghost use Rattle.std.specs.Io.KnownBytes.{Consumes};

use std::io::Read;
use std::rt::Files;
use std::{fs, str};

// Reads after which a file counts as ended: a loop that is proved has to end, and the count of bytes has to fit. No file is as long.
const READS: usize = 0x100_0000_0000;

// Reads until the buffer is full, the input ends or a read fails, and gives how many bytes it put at the buffer's start. Where
// it is known what the input has, they are its first bytes, and the rest is left.
pub fn fill<R: Read>(from: &mut R, buf: &mut [u8]) -> usize
    ensures within { result ≤ length buf.new }
    ensures bytes { Consumes (R.remaining from.old) (R.remaining from.new) (take result buf.new) }
{
    let mut done = 0;
    while done < buf.len() {
        match from.read(&mut buf[done..]) {
            Ok(0) => return done,
            Ok(n) => done += n,
            Err(_) => return done,
        }
    }
    done
}

// Reads once, and gives how many bytes came.
fn skip<R: Read>(from: &mut R) -> usize
    ensures { result ≤ 65536 }
{
    let mut buf = [0u8; 65536];
    fill(from, &mut buf)
}

// Reads to the end, and gives how many bytes came.
fn skip_all<R: Read>(from: &mut R) -> usize
    ensures { result ≤ 2 ^ 56 }
{
    let mut total = 0;
    for _ in 0..READS {
        let n = skip(from);
        if n == 0 {
            return total;
        }
        total += n;
    }
    total
}

// Reads from where the file stands into the buffer, as far as it has room, and gives the bytes up to the file's end.
fn read_from<R: Read>(from: &mut R, buf: &mut [u8]) -> usize
    requires { length buf.old ≤ 2 ^ 56 }
    ensures { result ≤ 2 ^ 57 }
{
    let first = fill(from, buf);
    if first < buf.len() {
        return first;
    }
    first + skip_all(from)
}

// Reads a file into the buffer, as far as it has room, and gives the bytes of the whole file. A file that can't be opened has none, and one
// that can't be read on ends there.
pub fn read<R: Files>(rt: &R, path: &[u8], buf: &mut [u8]) -> usize
    requires { length buf.old ≤ 2 ^ 56 }
    ensures { result ≤ 2 ^ 57 }
{
    let Ok(name) = str::from_utf8(path) else {
        return 0;
    };
    let Ok(mut file) = fs::open(rt, name) else {
        return 0;
    };
    read_from(&mut file, buf)
}
