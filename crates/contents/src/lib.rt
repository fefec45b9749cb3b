// Check 13, bad content: a rule for each type that has one, and none for the others. Paper: "Content".
#![tactic(auto)]

ghost use Rattle.std.specs.Prelude.{◌≡◌};
ghost use Rattle.model.specs.Content.{content_ok};
ghost use Rattle.state.specs.Reached.{rule_at};
ghost use Rattle.tally.specs.Tallied.{Tallied};

use state::candidate::Candidate;

// 13, bad content: the content is as the rule of the item's type asks.
pub fn content_ok(next: &Candidate, ballots: &[u32]) -> bool
    requires { Tallied next.now.board.now ballots.now next.now.state.items }
    ensures { result ≡ rule_at content_ok next.now }
{
    config::config_ok(next) && voting::voting_ok(next) && extraction::extraction_ok(next, ballots)
}
