// Drift: a clock's rate in parts per million.
#![tactic(auto)]

ghost use Rattle.bridge.specs.State.{Lawful};
ghost use Rattle.bridge.specs.Promises.{DriftPromise};

use bridge::Bridge;
use timeline::{Drift, ppm};

// Drift: of the own clock, 0, or of a port.
pub fn drift(b: Bridge, port: u8) -> Drift
    requires { Lawful b }
    ensures { DriftPromise b port result }
{
    if b.setup.n < port {
        return Drift::Refused;
    }
    ppm::drift(bridge_samples::samples(&b.clock, &b.ports, port))
}
