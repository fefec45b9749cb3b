// The buckets of items, and the chain tables with one item more.
ghost use Rattle.std.specs.Prelude.{◌≡◌, ◌+◌, ◌%◌};
ghost use Rattle.index.specs.Kept.{item_after};
ghost use Rattle.chains.specs.Chain.{buckets};
ghost use Rattle.lookup.specs.Buckets.{of_voter, of_session, parent_chain, session_chain};

use chains::Chain;
use format::head::Head;
use index::addition::Addition;

// Of an address, by its first word.
pub fn of_address(word: u32) -> usize
    ensures { result ≡ word % buckets }
{
    word as usize % Chain::BUCKETS
}

// Of a voter: bucket 0 has what is no session.
pub fn of_voter(voter: u32) -> usize
    ensures { result ≡ of_voter voter }
{
    voter as usize % (Chain::BUCKETS - 1) + 1
}

// Of an item that is one more, by its voter.
fn of_session(addition: &Addition) -> usize
    ensures { result ≡ of_session (item_after addition.now.board.now addition.now.count) }
{
    let item = addition.known.item;
    if item.head.code != Head::SESSION {
        return 0;
    }
    of_voter(addition.board[item.content])
}

// Puts an item that is one more into both chain tables.
pub fn link(addition: &Addition, parents: &mut [u32], sessions: &mut [u32])
    requires parents_value { parents.old ≡ parent_chain addition.now.board.now addition.now.count }
    requires sessions_value { sessions.old ≡ session_chain addition.now.board.now addition.now.count }
    ensures parents { parents.new ≡ parent_chain addition.now.board.now (addition.now.count + 1) }
    ensures sessions { sessions.new ≡ session_chain addition.now.board.now (addition.now.count + 1) }
{
    let address = addition.known.item.address;
    let number = addition.count + 1;
    chains::put(parents, of_address(addition.board[address]), number);
    chains::put(sessions, of_session(addition), number);
}
