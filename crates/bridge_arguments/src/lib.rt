// The refusals that are found before any record is looked at.
#![tactic(auto)]

ghost use Rattle.std.specs.Prelude.{◌≡◌, ◌&&◌, ◌≤◌, leb, take};
ghost use Rattle.times.specs.Times.{circle};
ghost use Rattle.frame.specs.Frame.{is_version};
ghost use Rattle.bridge.specs.Arguments.{has_link, port_refusal, send_refusal, own_clock_refusal, mask_beyond};
ghost use Rattle.bridge.specs.Fits.{delay_fits, setting_fits, delays_fit_of, versions_fit_of, ranges_fit, profile_fits};

use bridge::{PORTS, Setup};
use delay::DelaySetting;
use frame::{layout, version};
use port::{Profile, Setting};
use refusals::Refusal;
use times::{GrandTime, LocalTime, grand, local};

// What Setup takes: from the fewest ports to the most, a timeout from the least to the greatest, a backTime below the end.
const FEWEST_PORTS: u8 = 1;

const MOST_PORTS: u8 = 8;

const LEAST_TIMEOUT: u64 = 0x10_0000_0000;

const GREATEST_TIMEOUT: u64 = 0x4000_0000_0000;

const BACK_END: u64 = 0x80_0000_0000;

// What a listener has.
const LISTENER_PORTS: u8 = 1;

const LISTENER_BACK: u64 = 0;

// Whether a local time is out of its range. The laws of Age and Stamp ask it so, and not whether it is on its circle (`age_refused`).
pub fn off_circle(at: u64) -> bool
    ensures { result ≡ leb circle at }
{
    !local::is_on_circle(LocalTime(at))
}

// Whether a port has a link.
fn has_link(links: u8, port: u8) -> bool
    requires { (1 ≤ port) × (port ≤ 8) }
    ensures { result ≡ has_link links port }
{
    (links >> (port - 1)) % 2 == 1
}

// Refuses a call on a port that there is not or that has no link, or at a local time out of range. It is given n and the links, and no state, as `port_refusal` is.
#[tactic(auto, unfolding(bridge::specs::Arguments::port_refusal))]
pub fn port_refusal(n: u8, links: u8, port: u8, at: u64) -> Result<(), Refusal>
    requires { n ≤ 8 }
    ensures { result ≡ port_refusal n links port at }
{
    if port == 0 || n < port || off_circle(at) {
        return Err(Refusal::OutOfRange);
    }
    if !has_link(links, port) {
        return Err(Refusal::NoLink);
    }
    Ok(())
}

// Refuses a send as any call on the port, and into an output that is too short.
#[tactic(auto, unfolding(bridge::specs::Arguments::port_refusal, bridge::specs::Arguments::send_refusal))]
pub fn send_refusal(n: u8, links: u8, port: u8, t: u64, room: usize) -> Result<(), Refusal>
    requires { n ≤ 8 }
    ensures { result ≡ send_refusal n links port t room }
{
    port_refusal(n, links, port, t)?;
    if room < layout::FRAME_LENGTH {
        return Err(Refusal::WrongLength);
    }
    Ok(())
}

// Refuses a reading of the own clock with a time out of range, or on a station that is not capable. Seconds and fraction are two numbers, as Own clock is given them (`own_clock_of`).
#[tactic(auto, unfolding(bridge::specs::Arguments::own_clock_refusal))]
pub fn own_clock_refusal(capable: bool, seconds: u64, fraction: u64, at: u64) -> Result<(), Refusal>
    ensures { result ≡ own_clock_refusal capable seconds fraction at }
{
    if !grand::is_in_range(GrandTime(seconds, fraction)) || off_circle(at) {
        return Err(Refusal::OutOfRange);
    }
    if !capable {
        return Err(Refusal::NoClock);
    }
    Ok(())
}

// Whether a mask has a bit beyond n ports.
pub fn beyond(n: u8, mask: u8) -> bool
    requires { n ≤ 8 }
    ensures { result ≡ mask_beyond n mask }
{
    (1u32 << n) <= u32::from(mask)
}

// Whether a port's delay setting is one that Setup takes.
#[tactic(auto, unfolding(bridge::specs::Fits::delay_fits))]
fn delay_fits(setting: DelaySetting) -> bool
    ensures { result ≡ delay_fits setting }
{
    match setting {
        DelaySetting::Measured => true,
        DelaySetting::Fixed(delay) => delay <= delay::LONGEST_DELAY,
    }
}

// Whether a port's setting and the version of its frames are such as Setup takes.
fn port_fits(setting: Setting, version: u8) -> bool
    ensures { result ≡ setting_fits setting && is_version version }
{
    delay_fits(setting.delay) && version::is_version(u64::from(version))
}

// Whether those of the first n ports are.
fn ports_fit(n: u8, settings: [Setting; PORTS], versions: [u8; PORTS]) -> bool
    requires { n ≤ 8 }
    ensures { result ≡ delays_fit_of (take n settings) && versions_fit_of (take n versions) }
{
    // By an index: with a zip of both Setup takes 424 bytes of stack, of the 265 that bench/ceilings allows it.
    for i in 0..usize::from(n) {
        if !port_fits(settings[i], versions[i]) {
            return false;
        }
    }
    true
}

// Whether ports, timeout, backTime and fixed delays are in their ranges, and there are such versions.
#[tactic(auto, unfolding(bridge::specs::Fits::ranges_fit))]
pub fn ranges_fit(s: Setup) -> bool
    ensures { result ≡ ranges_fit s }
{
    FEWEST_PORTS <= s.n
        && s.n <= MOST_PORTS
        && LEAST_TIMEOUT <= s.timeout
        && s.timeout <= GREATEST_TIMEOUT
        && s.sender.back < BACK_END
        && ports_fit(s.n, s.settings, s.versions)
}

// Whether a station of this profile may have so many ports, a clock of its own, and this backTime.
#[tactic(auto, unfolding(bridge::specs::Fits::profile_fits))]
pub fn profile_fits(profile: Profile, n: u8, capable: bool, back: u64) -> bool
    ensures { result ≡ profile_fits profile n capable back }
{
    match profile {
        Profile::Full => true,
        Profile::Listener => n == LISTENER_PORTS && !capable && back == LISTENER_BACK,
    }
}
