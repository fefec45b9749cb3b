// Audits the board in the current folder: reads board.words, verdicts.words and roll.words, and prints the answer.
#![tactic(auto)]

use std::io;
use text::size::Sizes;

fn main(rt: HostRuntime) -> io::Result<()> {
    let mut board = [0u8; program::BOARD];
    let mut verdicts = [0u8; program::VERDICTS];
    let mut roll = [0u8; program::ROLL];
    let sizes = Sizes {
        board: files::read(&rt, b"board.words", &mut board),
        verdicts: files::read(&rt, b"verdicts.words", &mut verdicts),
        roll: files::read(&rt, b"roll.words", &mut roll),
    };
    let mut out = [0u8; program::TEXT];
    let n = program::answer(&mut out, sizes, &board, &verdicts, &roll);
    rt.write_all(&out[..n])
}
