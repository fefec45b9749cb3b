// Checks 11 and 12: what may stand when, and what may stand only once. Each is equal to its definition in the model.
#![tactic(auto)]

ghost use Rattle.std.specs.Prelude.{◌≡◌};
ghost use Rattle.model.specs.Phase.{phase_ok};
ghost use Rattle.model.specs.Only.{only_ok};
ghost use Rattle.lookup.specs.Buckets.{session_chain};
ghost use Rattle.state.specs.Reached.{history_before, item_at};

use state::candidate::Candidate;

mod only;
mod phase;

// 11 out of phase.
#[tactic(auto, unfolding(model::specs::Phase::phase_ok))]
pub fn phase_ok(next: &Candidate, sessions: &[u32]) -> bool
    requires { sessions.now ≡ session_chain next.now.board.now next.now.state.items }
    ensures { result ≡ phase_ok (history_before next.now) (item_at next.now) }
{
    phase::extraction_ok(next)
        && phase::open_ok(next)
        && phase::standing_ok(next)
        && phase::latest_ok(next, sessions)
        && phase::intent_ok(next)
        && phase::spoiled_ok(next)
}

// 12 second.
#[tactic(auto, unfolding(model::specs::Only::only_ok))]
pub fn only_ok(next: &Candidate) -> bool
    ensures { result ≡ only_ok (history_before next.now) (item_at next.now) }
{
    only::on_board_ok(next) && only::under_parent_ok(next) && only::under_ballot_ok(next)
}
