// Setup: the first state, or a refusal.
#![tactic(auto)]

ghost use Rattle.std.specs.Prelude.{◌≡◌};
ghost use Rattle.bridge.specs.Fits.{plain_setup};
ghost use Rattle.bridge.specs.Setup.{fresh_of, setup_of};
ghost use Rattle.bridge.specs.Promises.{DonePromise};

use bridge::{Bridge, Done, PORTS, Setup};
use choice::Precedence;
use delay::DelaySetting;
use frame::{Mac, version};
use port::{Profile, Sender, Setting, record};
use refusals::Refusal;

// The setup of a full bridge that is not capable and whose n ports all measure their delay and send version 1, with zeros for address and precedence.
pub fn plain_setup(n: u8, timeout: u64, back: u64) -> Setup
    ensures { result ≡ plain_setup n timeout back }
{
    let setting = Setting {
        delay: DelaySetting::Measured,
    };
    Setup {
        n,
        sender: Sender {
            profile: Profile::Full,
            mac: Mac(0, 0, 0, 0, 0, 0),
            back,
        },
        own: Precedence {
            priority1: 0,
            source: 0,
            variance: 0,
            priority2: 0,
            clock: 0,
        },
        capable: false,
        timeout,
        settings: [setting; PORTS],
        versions: [version::FIRST_VERSION; PORTS],
    }
}

// A state with this setup, all links down and all records empty: of the candidates there is the own clock alone.
fn fresh(setup: Setup) -> Bridge
    ensures { result ≡ fresh_of setup }
{
    Bridge {
        setup,
        links: 0,
        ranking: choice_ranking::alone(setup.capable, setup.own),
        clock: record::empty_clock(),
        ports: [record::empty(); PORTS],
    }
}

// Setup: the first state, or a refusal and the state that stands for none, which has no port and no own clock.
pub fn setup(given: Setup) -> Done<()>
    ensures { DonePromise (setup_of given) result }
{
    if bridge_arguments::profile_fits(
        given.sender.profile,
        given.n,
        given.capable,
        given.sender.back,
    ) && bridge_arguments::ranges_fit(given)
    {
        // Returned here, since a state that two branches give is copied once more.
        return Done {
            next: fresh(given),
            answer: Ok(()),
        };
    }
    Done {
        next: fresh(plain_setup(0, 0, 0)),
        answer: Err(Refusal::BadSetup),
    }
}
