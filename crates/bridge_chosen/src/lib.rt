// Chosen: the best clock.
#![tactic(auto)]

ghost use Rattle.bridge.specs.State.{Lawful};
ghost use Rattle.bridge.specs.Promises.{ChosenPromise};

use bridge::Bridge;
use choice::Candidate;

// Chosen: the best clock, or none.
pub fn chosen(b: Bridge) -> Option<Candidate>
    requires { Lawful b }
    ensures { ChosenPromise b result }
{
    choice_ranking::candidate_at(&b.ranking, choice_ranking::CHOSEN)
}
