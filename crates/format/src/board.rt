// What is asked of a board as a whole: whether it has a first item, and whether a closing word is its end.
// Paper: "Refusals and their order".
ghost use Rattle.std.specs.Prelude.{◌≡◌, ◌<◌, length};
ghost use Rattle.model.specs.Audit.{is_empty, is_closed};

use crate::head::Head;

// Numbers of items that a closing word can hold: bits 27..0.
const NUMBERS: u32 = 0x1000_0000;

// Whether the board has no words, or begins with a closing word.
pub fn is_empty(board: &[u32]) -> bool
    ensures { result ≡ is_empty board.now }
{
    if board.len() == 0 {
        return true;
    }
    Head::of(board[0]).kind == Head::CLOSING
}

// Whether the closing word at a place has the number of the items before it, and nothing follows it.
pub fn is_closed(board: &[u32], items: usize, place: usize) -> bool
    requires { place < length board.now }
    ensures { result ≡ is_closed board.now items place }
{
    let number = (board[place] % NUMBERS) as usize;
    number == items && place + 1 == board.len()
}
