// The versions of a frame.
ghost use Rattle.std.specs.Prelude.{◌≡◌};
ghost use Rattle.frame.specs.Frame.{is_version};

// Version 1.
pub const FIRST_VERSION: u8 = 1;

// Version 2.
pub const SECOND_VERSION: u8 = 2;

// Whether there is such a version. No matches!: a row is a u64, the versions are bytes, and a TryFrom between them is no plainer.
pub fn is_version(version: u64) -> bool
    ensures { result ≡ is_version version }
{
    version == u64::from(FIRST_VERSION) || version == u64::from(SECOND_VERSION)
}
