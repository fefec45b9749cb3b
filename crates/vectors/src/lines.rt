// Lines of output: a name, of the bits of the digest, a kind and a number, and the digest in hexadecimal.
ghost use Rattle.std.specs.Prelude.{◌≤◌, length};

use std::io;

fn print_words<R: Print>(rt: &R, words: &[u32]) -> io::Result<()> {
    for word in words {
        print!(rt; "{word:08x}")?;
    }
    Ok(())
}

pub fn show<R: Print>(rt: &R, kind: &[u8], n: usize, digest: &[u32]) -> io::Result<()>
    requires { length digest.now ≤ 16 }
{
    let bits = digest.len() * 32;
    print!(rt; "{bits}-")?;
    rt.write_all(kind)?;
    print!(rt; "{n} ")?;
    print_words(rt, digest)?;
    println!(rt)
}
