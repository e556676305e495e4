// Step 3: the hop that is held for a frame.
#![tactic(auto)]

ghost use Rattle.std.specs.Prelude.{◌≡◌, ◌<◌};
ghost use Rattle.choice.specs.Hop.{last_hop, jump_of, hop_of};

// The last hop: no frame with it is taken, and it stands for the chosen clock's where there is none.
// No Option for that: document 01 says of H "255 if none".
pub const LAST_HOP: u8 = 255;

// The jump of a frame with hop h from beyond the chosen clock: half way to the last hop, and never less than a single step.
#[tactic(auto, unfolding(choice::specs::Hop::jump_of))]
pub fn jump(h: u8) -> u8
    ensures { result ≡ jump_of h }
{
    ((LAST_HOP - h) / 2).max(1)
}

// The held hop of a frame with hop h, where the chosen clock's is `chosen`.
pub fn held_hop(h: u8, chosen: u8) -> u8
    requires { h < last_hop }
    ensures { result ≡ hop_of h chosen }
{
    if chosen < h { h + jump(h) } else { h + 1 }
}
