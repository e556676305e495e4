// The ranking as it is kept: a rank at each of nine places, the best first, and behind the last clock that of no candidate.
#![tactic(auto)]

ghost use Rattle.std.specs.Prelude.{◌≡◌, [], ◌<◌, ◌==◌, position};
ghost use Rattle.choice.specs.Choose.{candidate_of, own_candidate};
ghost use Rattle.choice.specs.Least.{port_in};
ghost use Rattle.choice.specs.Ranking.{placed_of};
ghost use Rattle.choice.specs.Places.{places, places_of, Whole, Kept, closed_at_of, inserted_in, candidate_in, Updates};

use choice::{Announcement, Candidate, Precedence, Rank};
use choice_ranks::NO_RANK;
use std::mem;

// One place for the own clock and one for each port.
pub const PLACES: usize = 9;

const LAST_PLACE: usize = PLACES - 1;

// The place of the best.
pub const CHOSEN: usize = 0;

// How many numbers a clock can have: a rank ends in its clock's.
const NUMBERS: u64 = 0x100;

// The ranking of a station whose ports announce nothing: its own clock, where it is capable.
pub fn alone(capable: bool, own: Precedence) -> [Rank; PLACES]
    ensures { result ≡ places_of places (placed_of (own_candidate capable own) []) }
{
    let mut ranking = [NO_RANK; PLACES];
    ranking[CHOSEN] = choice_ranks::own(capable, own);
    ranking
}

// The candidate at a place, the best at 0.
pub fn candidate_at(ranking: &[Rank; PLACES], place: usize) -> Option<Candidate>
    requires { Kept ranking.now }
    ensures { result ≡ candidate_in ranking.now place }
{
    choice_ranks::candidate(*ranking.get(place)?)
}

// The place of the clock with a number, where one has it.
fn place_of(ranking: &[Rank; PLACES], number: u8) -> Option<usize>
    ensures { result ≡ position (λ rank. port_in rank.1 == number) ranking.now }
{
    ranking
        .iter()
        .position(|rank| rank.1 % NUMBERS == u64::from(number))
}

// Takes a place out: those behind it move one place up.
fn close(ranking: &mut [Rank; PLACES], place: usize)
    requires whole { Whole ranking.old }
    requires place_lt_places { place < places }
    ensures { ranking.new ≡ closed_at_of place ranking.old }
{
    ranking.copy_within(place + 1.., place);
    ranking[LAST_PLACE] = NO_RANK;
}

// Puts a rank in before the first that is greater: that one and those behind it move one place down.
// One walk that moves as it goes, as `inserted_in` goes down the list; no search and copy_within, whose last place would be a case of its own.
fn insert(ranking: &mut [Rank; PLACES], rank: Rank)
    ensures { ranking.new ≡ inserted_in rank ranking.old }
{
    let mut moved = rank;
    for held in ranking.iter_mut() {
        if choice_ranks::precedes(moved, *held) {
            moved = mem::replace(held, moved);
        }
    }
}

// What a port announces takes the place of what stood under its number, where that is another rank.
// The test stands within the search's branch: it is of the place found, and where none is found the rank is put in as well.
pub fn update(ranking: &mut [Rank; PLACES], announcement: Option<Announcement>, number: u8)
    requires { Kept ranking.old }
    ensures { Updates number (candidate_of number announcement) ranking.old ranking.new }
{
    let rank = choice_ranks::announced(announcement, number);
    if let Some(place) = place_of(ranking, number) {
        if choice_ranks::same(ranking[place], rank) {
            return;
        }
        close(ranking, place);
    }
    insert(ranking, rank);
}
