// Writing: fields to a frame's bytes, or a refusal that leaves the output as it was.
#![tactic(auto)]

ghost use Rattle.std.specs.Prelude.{◌≡◌, ◌≤◌, length, drop};
ghost use Rattle.frame.specs.Frame.{frame_length, values_of};
ghost use Rattle.frame.specs.Write.{write_refusal, bytes_of};
ghost use Rattle.frame.specs.Promises.{WritePromise};

use frame::layout::ROWS;
use frame::{Fields, layout, version};
use refusals::Refusal;
use times::{grand, local};

// The numbers that the fields put into a frame.
fn values(f: &Fields) -> [u64; ROWS]
    ensures { result ≡ values_of f.now }
{
    [
        frame_read::STATION_ADDRESS,
        u64::from(f.sa.0),
        u64::from(f.sa.1),
        u64::from(f.sa.2),
        u64::from(f.sa.3),
        u64::from(f.sa.4),
        u64::from(f.sa.5),
        frame_read::LOCAL_EXPERIMENTAL,
        frame_read::TIME_SYNC,
        u64::from(f.version),
        u64::from(f.precedence.priority1),
        u64::from(f.precedence.source),
        u64::from(f.precedence.variance),
        u64::from(f.precedence.priority2),
        f.precedence.clock,
        u64::from(f.hop),
        u64::from(f.count),
        0,
        f.grand.0,
        f.grand.1,
        f.local.0,
        f.tx.0,
        f.rx.0,
        u64::from(f.error.0),
    ]
}

// Why fields are not written into an output of this length, or nothing.
#[tactic(auto, unfolding(frame::specs::Write::write_refusal))]
fn write_refusal(f: &Fields, room: usize) -> Result<(), Refusal>
    ensures { result ≡ write_refusal f.now room }
{
    if !grand::is_in_range(f.grand)
        || !local::is_on_circle(f.local)
        || !local::is_on_circle(f.tx)
        || !local::is_on_circle(f.rx)
    {
        return Err(Refusal::OutOfRange);
    }
    if room < layout::FRAME_LENGTH {
        return Err(Refusal::WrongLength);
    }
    if !version::is_version(u64::from(f.version)) {
        return Err(Refusal::WrongVersion);
    }
    Ok(())
}

// Fills the first 64 bytes of an output that has room for them with the frame.
#[tactic(auto, unfolding(frame::specs::Write::bytes_of))]
pub fn put(f: Fields, out: &mut [u8])
    requires { frame_length ≤ length out.old }
    ensures { out.new ≡ bytes_of f (drop frame_length out.old) }
{
    layout::fill(values(&f), out);
}

// Fills the first 64 bytes of out with the frame, or refuses a time, the length or the version, and out stays.
pub fn write(f: Fields, out: &mut [u8]) -> Result<(), Refusal>
    ensures { WritePromise f out.old result out.new }
{
    write_refusal(&f, out.len())?;
    put(f, out);
    Ok(())
}
