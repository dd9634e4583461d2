// A function on signed numbers that two crates share. It spares its callers the proof that a magnitude is in range.
#![tactic(auto)]

ghost use Rattle.std.specs.Prelude.{◌≡◌};
ghost use Rattle.numbers.specs.internal.Signed.{below_zero};

// One less than the magnitude of a number below zero, 0 for any other. Unlike the magnitude it is in range for each of them.
pub fn below_zero(z: i64) -> u64
    ensures { result ≡ below_zero z }
{
    if z < 0 { (-1 - z) as u64 } else { 0 }
}
