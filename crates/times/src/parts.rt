// A second in equal parts, `parts` of which are just so many units: the part that a fraction lies in, and the least fraction of a part.
ghost use Rattle.std.specs.Prelude.{◌≡◌, ◌+◌, ◌*◌, ◌^◌, ◌<◌, ◌≤◌};
ghost use Rattle.times.specs.Parts.{part_of, least_of};

// `parts` and `units` are two numbers and no record, as in `part_of` and `least_of`, and these two functions alone have them.

// The part that a fraction lies in.
pub fn part(fraction: u64, parts: u64, units: u64) -> u64
    requires units_nonzero { 0 < units }
    requires parts_bound { fraction * parts < 2 ^ 64 }
    ensures { result ≡ part_of parts units fraction }
{
    fraction * parts / units
}

// The least fraction that lies in a part.
pub fn least(part: u64, parts: u64, units: u64) -> u64
    requires parts_nonzero { 0 < parts }
    requires parts_bound { part * units + parts ≤ 2 ^ 64 }
    ensures { result ≡ least_of parts units part }
{
    (part * units).div_ceil(parts)
}
