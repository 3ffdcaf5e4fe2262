// Counts that stop at the greatest `u64`, and numbers of calls that fail.
ghost use Rattle.std.specs.Prelude.{◌≡◌, ◌≤◌, ◌+◌, ◌-◌, ◌^◌, ◌↔◌, min, IsTrue};
ghost use Rattle.nova_outside.specs.Causes.{Rose};
ghost use Rattle.nova_mem.specs.Turns.{IsAmong};

/// Whether the number is one of those.
pub fn is_among(number: u64, numbers: &[u64]) -> bool
    ensures { IsTrue result ↔ IsAmong number numbers.now }
{
    numbers.contains(&number)
}

/// Raises a count by one.
pub fn raise(count: &mut u64)
    ensures raised { count.new ≡ min (count.old + 1) (2 ^ 64 - 1) }
    ensures later { count.old ≤ count.new }
    ensures rose { Rose count.old count.new }
{
    *count = count.saturating_add(1);
}
