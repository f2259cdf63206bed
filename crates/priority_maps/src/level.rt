//! Priorities as unsigned numbers.
ghost use Rattle.std.specs.Prelude.{◌≡◌, ◌<◌, ◌^◌, Some};

use orb_base::Priority;

/// The priority as an unsigned number, 0 to 32767.
pub fn level_of(p: Priority) -> u16
    ensures value { result ≡ p }
    ensures small { result < 2 ^ 15 }
{
    p.level()
}

/// The priority of an unsigned number. It is always there.
pub fn at_level(level: u16) -> Option<Priority>
    requires { level < 2 ^ 15 }
    ensures { result ≡ Some level }
{
    Priority::new(level as i16)
}
