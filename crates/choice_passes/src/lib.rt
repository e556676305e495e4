// Passes left at a hop: read off a table, worked out by the rule, and the test that the table agrees with the rule.
#![tactic(auto)]

pub mod table;

ghost use Rattle.std.specs.Prelude.{◌≡◌};
ghost use Rattle.choice.specs.Passes.{passes_of, agrees_of};

use choice_hop::LAST_HOP;

// How many hops a byte has, each with an entry in a table.
const HOPS: usize = 256;

// The passes left at a hop.
pub fn passes_left(hop: u8) -> u8
    ensures { result ≡ passes_of hop }
{
    table::PASSES[usize::from(hop)]
}

// The passes left at a hop, worked out: none at the last; at any other, one more than at the hop that the jump leads to.
pub fn passes_by_rule(hop: u8) -> u8
    ensures { result ≡ passes_of hop }
{
    if hop == LAST_HOP {
        return 0;
    }
    1 + passes_by_rule(hop + choice_hop::jump(hop))
}

// Whether a table has an entry for each hop, and each is the passes left there.
pub fn agrees(table: &[u8]) -> bool
    ensures { result ≡ agrees_of table.now }
{
    table.len() == HOPS
        && table
            .iter()
            .enumerate()
            .all(|(hop, passes)| *passes == passes_by_rule(hop as u8))
}
