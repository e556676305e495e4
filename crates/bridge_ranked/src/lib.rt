// Ranked: the candidate at a place of the ranking, for a front panel.
#![tactic(auto)]

ghost use Rattle.bridge.specs.State.{Lawful};
ghost use Rattle.bridge.specs.Promises.{RankedPromise};

use bridge::Bridge;
use choice::Candidate;

// Ranked: the candidate at a place, 0 the chosen one, 1 the runner-up; or none.
pub fn ranked(b: Bridge, place: u8) -> Option<Candidate>
    requires { Lawful b }
    ensures { RankedPromise b place result }
{
    // The ranking alone, since what is read at a place is copied whole.
    let ranking = b.ranking;
    choice_ranking::candidate_at(&ranking, usize::from(place))
}
