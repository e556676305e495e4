// Records that are empty, and that lose what is too old.
ghost use Rattle.std.specs.Prelude.{◌≡◌};
ghost use Rattle.port.specs.Record.{empty_port, empty_clock, too_old, aged_port};

use crate::{OwnClock, Port, Preceding};
use choice::Announcement;
use samples::Samples;
use times::{LocalTime, local};

// A record of which nothing is stored.
pub fn empty() -> Port
    ensures { result ≡ empty_port }
{
    Port {
        preceding: Preceding::Never,
        announcement: None,
        samples: Samples::Empty,
        pair: None,
        echo: None,
        count: 0,
    }
}

// An own clock of which nothing is stored.
pub fn empty_clock() -> OwnClock
    ensures { result ≡ empty_clock }
{
    OwnClock {
        preceding: Preceding::Never,
        samples: Samples::Empty,
    }
}

// Whether an announcement is as old as the timeout.
pub fn too_old(announcement: Option<Announcement>, at: LocalTime, timeout: u64) -> bool
    ensures { result ≡ too_old announcement at timeout }
{
    announcement.is_some_and(|held| timeout <= local::since(at, held.heard_at))
}

// Takes announcement, samples and echo out of a record whose announcement is as old as the timeout.
#[tactic(auto, unfolding(crate::specs::Record::aged_port))]
pub fn age(port: &mut Port, at: LocalTime, timeout: u64)
    ensures { port.new ≡ aged_port at timeout port.old }
{
    if too_old(port.announcement, at, timeout) {
        port.announcement = None;
        port.samples = Samples::Empty;
        port.echo = None;
    }
}
