// The items that passed, with a chain table of theirs: by their addresses, which a parent is found by, or by their voters.
ghost use Rattle.std.specs.Prelude.{◌≡◌};
ghost use Rattle.lookup.specs.Buckets.{parent_chain, session_chain};

use index::passed::Passed;

// With the chain table that finds a parent.
#[derive(Clone, Copy)]
pub struct Parents<'a> {
    pub passed: Passed<'a>,
    pub chain: &'a [u32],
    pub ghost chained: { chain.now ≡ parent_chain passed.board.now passed.count },
}

// With the chain table that finds the latest session of a voter.
#[derive(Clone, Copy)]
pub struct Sessions<'a> {
    pub passed: Passed<'a>,
    pub chain: &'a [u32],
    pub ghost chained: { chain.now ≡ session_chain passed.board.now passed.count },
}
