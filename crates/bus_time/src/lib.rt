// Outward and Inward: the bus time of a grand time, and the next grand time of a bus time; and the bus's register.
#![tactic(auto)]

ghost use Rattle.std.specs.Prelude.{◌≡◌, ◌<◌};
ghost use Rattle.refusals.specs.Promises.{AnswerPromise};
ghost use Rattle.times.specs.Times.{second, InRange};
ghost use Rattle.bus.specs.Demands.{OnBus};
ghost use Rattle.bus.specs.Bus.{second_ticks, is_bus, tick_of, bus_time_of, outward_of, outward_refusal, tick_at, start_of, own_second, next_of, before_end, inward_of, inward_refusal, cycle_time_of, register_of, register_refusal, fields_of};

use bus::{BusTime, CycleTime};
use refusals::Refusal;
use times::{GrandTime, grand, local, parts};

// The seconds that the bus counts, the cycles of a second, the ticks of a cycle.
const BUS_SECONDS: u64 = 128;

const SECOND_CYCLES: u64 = 8_000;

const CYCLE_TICKS: u64 = 3_072;

// So many ticks are just so many U: 24,576,000 and 2^40, each divided by the 2^16 that both have.
const COMMON_TICKS: u64 = 375;

const COMMON_UNITS: u64 = 0x100_0000;

// What a second and a cycle count for in the register, and how many cycles its bits could tell.
const REGISTER_SECOND: u64 = 0x200_0000;

const REGISTER_CYCLE: u64 = 0x1000;

const REGISTER_CYCLES: u64 = 0x2000;

// Whether the fields of a bus time are in range.
fn is_bus(time: BusTime) -> bool
    ensures { result ≡ is_bus time }
{
    time.seconds < BUS_SECONDS && time.cycle < SECOND_CYCLES && time.offset < CYCLE_TICKS
}

// The tick that a fraction lies in.
#[tactic(auto, using(bus::proofs::PromiseLaws::tick_is))]
fn tick_of(fraction: u64) -> u64
    requires { fraction < second }
    ensures { result ≡ tick_of fraction }
{
    parts::part(fraction, COMMON_TICKS, COMMON_UNITS)
}

// Outward: the bus time of a grand time, rounded down to the tick.
#[tactic(auto, unfolding(bus::specs::Bus::outward_of))]
pub fn outward(time: GrandTime) -> Result<BusTime, Refusal>
    ensures { AnswerPromise (outward_of time) (outward_refusal time) (bus_time_of time) result }
{
    if !grand::is_in_range(time) {
        return Err(Refusal::OutOfRange);
    }
    let tick = tick_of(time.1);
    Ok(BusTime {
        seconds: time.0 % BUS_SECONDS,
        cycle: tick / CYCLE_TICKS,
        offset: tick % CYCLE_TICKS,
    })
}

// The start of a tick in a second, if that is one of grand time's.
#[tactic(auto, using(bus::proofs::PromiseLaws::least_is))]
fn start(seconds: u64, tick: u64) -> Result<GrandTime, Refusal>
    requires { tick < second_ticks }
    ensures { result ≡ before_end (start_of seconds tick) }
{
    if grand::SECOND <= seconds {
        return Err(Refusal::BeyondRange);
    }
    Ok(GrandTime(seconds, parts::least(tick, COMMON_TICKS, COMMON_UNITS)))
}

// The tick of its second that a bus time names.
fn tick_at(time: BusTime) -> u64
    requires { OnBus time }
    ensures { result ≡ tick_at time }
{
    time.cycle * CYCLE_TICKS + time.offset
}

// The next grand time in a tick, where the bus's second is the hint's own.
#[tactic(auto, unfolding(bus::specs::Bus::own_second))]
fn own_second(tick: u64, hint: GrandTime) -> Result<GrandTime, Refusal>
    requires tick_lt_second_ticks { tick < second_ticks }
    requires in_range { InRange hint }
    ensures { result ≡ before_end (own_second tick hint) }
{
    let here = tick_of(hint.1);
    if here < tick {
        return start(hint.0, tick);
    }
    if tick < here {
        return start(hint.0 + BUS_SECONDS, tick);
    }
    Ok(hint)
}

// Inward: the least grand time that has the fields of a bus time and isn't below the hint.
#[tactic(auto, unfolding(bus::specs::Bus::inward_of, bus::specs::Bus::next_of))]
pub fn inward(time: BusTime, hint: GrandTime) -> Result<GrandTime, Refusal>
    ensures { AnswerPromise (inward_of time hint) (inward_refusal time hint) (next_of time hint) result }
{
    if !is_bus(time) || !grand::is_in_range(hint) {
        return Err(Refusal::OutOfRange);
    }
    let tick = tick_at(time);
    let ahead = local::around(time.seconds, hint.0, BUS_SECONDS);
    if ahead == 0 {
        return own_second(tick, hint);
    }
    start(hint.0 + ahead, tick)
}

// The bits of the bus's register that hold a bus time.
// `as` takes off no bit, by `OnBus`; a `try_from` would answer a Result that can't fail.
fn bits_of(time: BusTime) -> u32
    requires { OnBus time }
    ensures { result ≡ (cycle_time_of time).0 }
{
    let bits = time.seconds * REGISTER_SECOND + time.cycle * REGISTER_CYCLE + time.offset;
    bits as u32
}

// Register: the bus's register that holds a bus time.
#[tactic(auto, unfolding(bus::specs::Bus::register_of))]
pub fn register(time: BusTime) -> Result<CycleTime, Refusal>
    ensures { AnswerPromise (register_of time) (register_refusal time) (cycle_time_of time) result }
{
    if !is_bus(time) {
        return Err(Refusal::OutOfRange);
    }
    Ok(CycleTime(bits_of(time)))
}

// Fields: the bus time that the bits of a register say.
pub fn fields(register: CycleTime) -> BusTime
    ensures { result ≡ fields_of register }
{
    let bits = u64::from(register.0);
    BusTime {
        seconds: bits / REGISTER_SECOND,
        cycle: bits / REGISTER_CYCLE % REGISTER_CYCLES,
        offset: bits % REGISTER_CYCLE,
    }
}
