// An item of a board: its head, and where its parts stand.
ghost use Rattle.std.specs.Prelude.{◌≡◌, ◌<◌, ◌≤◌, length};
ghost use Rattle.model.specs.Audit.{word_limit};
ghost use Rattle.format.specs.Layout.{item_of};

use crate::format::Format;
use crate::head::Head;

#[derive(Clone, Copy)]
pub struct Item {
    pub place: usize,
    pub head: Head,
    pub content: usize,
    pub parent: usize,
    pub previous: usize,
    pub time: usize,
    pub signature: usize,
    pub address: usize,
    pub end: usize,
}

impl Item {
    // Words of a time.
    pub const TIME: usize = 2;

    // The item whose head stands at a place. It may reach past the end of the board.
    pub fn at(board: &[u32], place: usize) -> Self
        requires { (place < length board.now) × (length board.now ≤ word_limit) }
        ensures { result ≡ item_of board.now place }
    {
        let format = Format::of(board);
        let head = Head::of(board[place]);
        let content = place + 1;
        let parent = content + head.count;
        let previous = parent + format.address;
        let time = previous + format.address;
        let signature = time + Item::TIME;
        let address = signature + format.signature;
        let end = address + format.address;
        Item {
            place,
            head,
            content,
            parent,
            previous,
            time,
            signature,
            address,
            end,
        }
    }
}
