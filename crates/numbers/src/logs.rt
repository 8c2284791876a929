// Logarithms to base 2.
ghost use Rattle.std.specs.Prelude.{◌≡◌, ◌<◌};
ghost use Rattle.numbers.specs.Logs.{log2, Greatest, Least};
ghost use Rattle.numbers.specs.declared.rounding.RoundingMode.TheVariants.{Down, Up};

// Rounded down, and 0 at 0.
pub fn floor_log_2(number: u32) -> u32
    ensures value { result ≡ log2 Down number }
    ensures greatest { 0 < number → Greatest number result }
{
    if number == 0 { 0 } else { number.ilog2() }
}

// Rounded up, and 0 at 0.
pub fn ceil_log_2(number: u32) -> u32
    ensures value { result ≡ log2 Up number }
    ensures least { Least number result }
{
    if number <= 1 {
        0
    } else {
        (number - 1).ilog2() + 1
    }
}
