// Links: which ports have a link.
#![tactic(auto)]

ghost use Rattle.std.specs.Prelude.{◌≡◌, ◌<◌};
ghost use Rattle.bridge.specs.Table.{loses_link};
ghost use Rattle.bridge.specs.State.{Lawful};
ghost use Rattle.bridge.specs.Links.{links_of};
ghost use Rattle.bridge.specs.Promises.{LinksPromise};

use bridge::{Bridge, Done};
use port::record;
use refusals::Refusal;

// Whether the port at index i loses its link where the links were `links` and are `mask`.
fn loses_link(links: u8, mask: u8, i: usize) -> bool
    requires { i < 8 }
    ensures { result ≡ loses_link links mask i }
{
    (links >> i) % 2 == 1 && (mask >> i) % 2 == 0
}

// Links in a state that it is lent: a port that loses its link loses its record and its place in the ranking, and no other record is stored.
// The loop goes by the index: over `iter_mut` the records are lent out of the state, and its invariant, `Stored`, speaks of the whole state (tried in Age).
// The casts are of at most 8, for which `try_from` with its error is no plainer.
fn relink(b: &mut Bridge, mask: u8) -> Result<u8, Refusal>
    requires { Lawful b.old }
    ensures { record { next = b.new; answer = result } ≡ links_of b.old mask }
{
    if bridge_arguments::beyond(b.setup.n, mask) {
        return Err(Refusal::OutOfRange);
    }
    for i in 0..usize::from(b.setup.n) {
        if loses_link(b.links, mask, i) {
            choice_ranking::update(&mut b.ranking, None, (i + 1) as u8);
            b.ports[i] = record::empty();
        }
    }
    b.links = mask;
    Ok(mask.count_ones() as u8)
}

// Links: the ports that have a link are the set bits of the mask; the answer is how many.
pub fn links(b: Bridge, mask: u8) -> Done<u8>
    requires { Lawful b }
    ensures { LinksPromise b mask result }
{
    let mut next = b;
    let answer = relink(&mut next, mask);
    Done { next, answer }
}
