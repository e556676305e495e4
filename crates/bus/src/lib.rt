// The cycle time of an IEEE 1394 bus, for a recorder that hangs on one: the fields of a grand time, the grand time of fields, and the bus's register. The types, definitions and theorems stand here; the calls' code is above.
#![tactic(auto)]

// A bus time: its second, modulo 128; the cycle of that second, 0 to 7,999; the tick of that cycle, 0 to 3,071.
#[derive(Clone, Copy)]
pub struct BusTime {
    pub seconds: u64,
    pub cycle: u64,
    pub offset: u64,
}

// The 32 bits of the bus's CYCLE_TIME register.
#[derive(Clone, Copy)]
pub struct CycleTime(pub u32);
