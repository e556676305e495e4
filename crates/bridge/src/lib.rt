// The state of a bridge, handed in and back by value, what its calls answer, how many bytes both take, and Setup's defaults. The definitions and theorems of all calls stand here; each call's code is a crate above.
#![tactic(auto)]

ghost use Rattle.std.specs.Prelude.{◌≡◌};
ghost use Rattle.bridge.specs.Setup.{default_timeout, default_back};
ghost use Rattle.bridge.specs.State.{state_bytes, done_bytes};

use choice::{Precedence, Rank};
use port::{OwnClock, Port, Sender, Setting};
use refusals::Refusal;
use std::mem;

// How many records there are.
pub const PORTS: usize = 8;

// How many places the ranking has: one for each port, and one for the own clock.
pub const PLACES: usize = 9;

// Half a second, and 15 ms.
const HALF_A_SECOND: u64 = 0x80_0000_0000;

const FIFTEEN_MILLISECONDS: u64 = 16_492_674_417;

// What Setup is given: what the station puts into its frames, its own precedence and whether it is capable, how many ports it has, the version of the
// frames that each of them sends, a timeout, and each port's part.
// `own` stands beside `capable`, and is no Option: the state keeps what Setup was given (`fresh_of`, `TypedSetup`), also of a station that is not capable.
// `n` stands beside two lists of eight: there is no heap, and `versions_fit_of` and `delays_fit_of` read a list each. A version in its port's Setting was tried: it proved, and a state took 64 bytes more.
#[derive(Clone, Copy)]
pub struct Setup {
    pub sender: Sender,
    pub own: Precedence,
    pub capable: bool,
    pub n: u8,
    pub versions: [u8; PORTS],
    pub timeout: u64,
    pub settings: [Setting; PORTS],
}

// The whole state: what Setup was given, the links, the ranking of all candidates, the own clock's record and the ports' records.
// `Lawful` stands at each call, and is no invariant of the type: the definitions make states as plain records (`state_of`, `no_bridge`), and that they are lawful is what theorems prove of them (`run_lawful`).
#[derive(Clone, Copy)]
pub struct Bridge {
    pub setup: Setup,
    pub links: u8,
    pub ranking: [Rank; PLACES],
    pub clock: OwnClock,
    pub ports: [Port; PORTS],
}

// What a call answers, and the next state: most answers carry nothing, and that of Links how many ports have a link.
#[derive(Clone, Copy)]
pub struct Done<A> {
    pub next: Bridge,
    pub answer: Result<A, Refusal>,
}

// How many bytes a state takes: a task that makes a call has room for it.
pub fn state_bytes() -> usize
    ensures { result ≡ state_bytes }
{
    mem::size_of::<Bridge>()
}

// How many bytes an answer takes with the next state: a task has room for that too.
pub fn done_bytes() -> usize
    ensures { result ≡ done_bytes }
{
    mem::size_of::<Done<()>>()
}

// The default timeout.
pub fn default_timeout() -> u64
    ensures { result ≡ default_timeout }
{
    HALF_A_SECOND
}

// The default backTime.
pub fn default_back() -> u64
    ensures { result ≡ default_back }
{
    FIFTEEN_MILLISECONDS
}
