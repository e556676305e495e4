// What is asked of a choice: its held hop and its number, and both as they are shown.
#![tactic(auto)]

ghost use Rattle.std.specs.Prelude.{◌≡◌};
ghost use Rattle.choice.specs.Choose.{chosen_hop, number_of, shown_port, shown_hop};

use choice::Candidate;

// What is shown where no clock is chosen: document 01 prints FF FF, two bytes also without a clock.
const NONE_SHOWN: u8 = 255;

// The held hop of the chosen clock, the last one where there is none.
#[tactic(auto, unfolding(choice::specs::Choose::chosen_hop))]
pub fn chosen_hop(choice: Option<Candidate>) -> u8
    ensures { result ≡ chosen_hop choice }
{
    choice.map_or(choice_hop::LAST_HOP, |clock| clock.hop)
}

// The number of the chosen clock, 0 where there is none: no Option, `number_of` is a number, and Send looks up samples by it whatever is chosen (`send_of`).
pub fn number(choice: Option<Candidate>) -> u8
    ensures { result ≡ number_of choice }
{
    choice.map_or(0, |clock| clock.number)
}

// The port of a choice, as it is shown.
#[tactic(auto, unfolding(choice::specs::Choose::shown_port))]
pub fn shown_port(choice: Option<Candidate>) -> u8
    ensures { result ≡ shown_port choice }
{
    choice.map_or(NONE_SHOWN, |clock| clock.number)
}

// The held hop of a choice, as it is shown.
#[tactic(auto, unfolding(choice::specs::Choose::shown_hop))]
pub fn shown_hop(choice: Option<Candidate>) -> u8
    ensures { result ≡ shown_hop choice }
{
    choice.map_or(NONE_SHOWN, |clock| clock.hop)
}
