// What Setup is given by a line: S and P have the fields `n mac prec capable timeout back d1 .. d8`, V has `listener` before them and `versions` behind them.
// Fields are counted from 0, the first after the letter.
#![tactic(auto)]

ghost use Rattle.std.specs.Prelude.{◌≡◌, ◌<◌, ◌≤◌};
ghost use Rattle.forms.specs.Form.{most_fields};
ghost use Rattle.forms.specs.Value.{flag_in};
ghost use Rattle.replay_setup.specs.Argument.{profile_by, setting_in, settings_in, versions_in, setup_from, setup_in};

use bridge::{PORTS, Setup};
use delay::DelaySetting;
use forms::{Form, value};
use frame::version::FIRST_VERSION;
use port::{Profile, Sender, Setting};
use std::array;

// How many fields behind n the others stand: mac is the next, prec the one after it.
const CAPABLE: usize = 3;

const TIMEOUT: usize = 4;

const BACK: usize = 5;

const DELAYS: usize = 6;

// The field of n in S and P; in V it stands behind the flag.
const FIRST: usize = 0;

const LISTENER: usize = 0;

const BEHIND_LISTENER: usize = 1;

// Where V's versions begin among the line's bytes.
const VERSIONS: usize = 19;

// A flag that is set.
const SET: u64 = 1;

// Field i as a flag.
fn flag(form: Form, i: usize) -> bool
    requires { i < most_fields }
    ensures { result ≡ flag_in form i }
{
    form.numbers[i] == SET
}

// A listener's profile, or a full bridge's. A `From<bool>` is no plainer: it would not say which of the two the flag means.
fn profile(listener: bool) -> Profile
    ensures { result ≡ profile_by listener }
{
    if listener {
        Profile::Listener
    } else {
        Profile::Full
    }
}

// Field i as a port's part of the setup.
fn setting(form: Form, i: usize) -> Setting
    requires { i < most_fields }
    ensures { result ≡ setting_in form i }
{
    let delay = if form.marked[i] {
        DelaySetting::Measured
    } else {
        DelaySetting::Fixed(form.numbers[i])
    };
    Setting { delay }
}

// The ports' part of the setup, one field each from field i on.
#[tactic(auto, unfolding(crate::specs::Argument::settings_in))]
fn settings(form: Form, i: usize) -> [Setting; PORTS]
    requires { i ≤ 8 }
    ensures { result ≡ settings_in form i }
{
    array::from_fn(|port| setting(form, i + port))
}

// The ports' versions, as V says them.
#[tactic(auto, unfolding(crate::specs::Argument::versions_in))]
fn versions(b: &[u8; 256]) -> [u8; PORTS]
    ensures { result ≡ versions_in b.now }
{
    array::from_fn(|port| b[VERSIONS + port])
}

// What Setup is given by the fields from n on, which every line has, with a profile and versions.
#[tactic(auto, unfolding(crate::specs::Argument::setup_from))]
fn from(form: Form, n: usize, profile: Profile, versions: [u8; PORTS]) -> Setup
    requires { n ≤ 1 }
    ensures { result ≡ setup_from form n profile versions }
{
    Setup {
        n: value::byte(form, n),
        sender: Sender {
            profile,
            mac: replay_frames::mac(&form.bytes),
            back: value::number_or(form, n + BACK, bridge::default_back()),
        },
        own: replay_frames::precedence(&form.bytes),
        capable: flag(form, n + CAPABLE),
        timeout: value::number_or(form, n + TIMEOUT, bridge::default_timeout()),
        settings: settings(form, n + DELAYS),
        versions,
    }
}

// What Setup is given by a line with this letter.
#[tactic(auto, unfolding(crate::specs::Argument::setup_in))]
pub fn given(letter: u8, form: Form) -> Setup
    ensures { result ≡ setup_in letter form }
{
    match letter {
        b'V' => {
            let said = profile(flag(form, LISTENER));
            from(form, BEHIND_LISTENER, said, versions(&form.bytes))
        }
        _ => from(form, FIRST, profile(letter == b'P'), [FIRST_VERSION; PORTS]),
    }
}
