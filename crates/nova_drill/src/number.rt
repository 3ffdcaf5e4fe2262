//! The numbers behind the entries.
ghost use Rattle.std.specs.Prelude.{◌≡◌, ◌<◌};
ghost use Rattle.nova_drill.specs.Numbers as spec;

/// Each number is below it: a prime, so that the numbers come around late.
pub const MODULUS: u64 = 65537;

/// The number behind this one.
pub fn next_number(number: u64) -> u64
    requires { number < 65537 }
    ensures next { result ≡ spec.next_number number }
    ensures bound { result < 65537 }
{
    (75 * number + 74) % MODULUS
}
