// Times for a PTP analyser: the IEEE 1588 timestamp of a grand time, the grand time of a timestamp, and PTP seconds on other scales. The types, definitions and theorems stand here; the calls' code is above.
#![tactic(auto)]

// A second of the PTP scale, 0 to 2^48 - 1.
#[derive(Clone, Copy)]
pub struct PtpSecond(pub u64);

// A PTP time: its second, and the nanoseconds since that second began, below 10^9.
#[derive(Clone, Copy)]
pub struct PtpTime(pub PtpSecond, pub u64);

// A second of the GPS scale, 0 to 2^48 - 1.
#[derive(Clone, Copy)]
pub struct GpsSecond(pub u64);

// A second of the UTC scale, 0 to 2^48 - 1.
#[derive(Clone, Copy)]
pub struct UtcSecond(pub u64);

// A second of the NTP scale, 0 to 2^48 - 1.
#[derive(Clone, Copy)]
pub struct NtpSecond(pub u64);
