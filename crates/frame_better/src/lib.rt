// The better of two frames, as a part of it.
#![tactic(auto)]

ghost use Rattle.std.specs.Prelude.{◌≡◌};
ghost use Rattle.frame.specs.Better.{standing_of, winner_of};
ghost use Rattle.frame.specs.Promises.{BetterPromise};

use frame::{Standing, Winner};

// Where the 13 precedence bytes of a frame start and end.
const PRECEDENCE_START: usize = 16;

const PRECEDENCE_END: usize = 29;

// How a frame stands: what is refused, or has the last hop, loses.
#[tactic(auto, unfolding(frame::specs::Better::standing_of))]
fn standing(frame: &[u8]) -> Option<Standing>
    ensures { result ≡ standing_of frame.now }
{
    let f = frame_read::read(frame).ok()?;
    if f.hop == choice_hop::LAST_HOP {
        return None;
    }
    Some(Standing {
        precedence: f.precedence,
        hop: f.hop,
    })
}

// The better of two standings, the first on a tie.
#[tactic(auto, unfolding(frame::specs::Better::winner_of))]
fn winner(first: Option<Standing>, second: Option<Standing>) -> Winner
    ensures { result ≡ winner_of first second }
{
    match (first, second) {
        (None, None) => Winner::Neither,
        (None, Some(_)) => Winner::Second,
        (Some(_), None) => Winner::First,
        (Some(x), Some(y)) => {
            if choice_order::key_precedes(y.precedence, y.hop, x.precedence, x.hop) {
                Winner::Second
            } else {
                Winner::First
            }
        }
    }
}

// The 13 precedence bytes of the better frame, where they stand; nothing of the first where both lose.
pub fn better<'a>(a: &'a [u8], b: &'a [u8]) -> &'a [u8]
    ensures { BetterPromise a.entry b.entry result }
{
    match winner(standing(a), standing(b)) {
        Winner::Neither => &a[0..0],
        Winner::First => &a[PRECEDENCE_START..PRECEDENCE_END],
        Winner::Second => &b[PRECEDENCE_START..PRECEDENCE_END],
    }
}
