// The sine of an angle in tenths of a degree, from a table.
#![tactic(auto)]

mod table;

ghost use Rattle.std.specs.Prelude.{◌≡◌};
ghost use Rattle.num_sine.specs.Sine.{sine_entry_of, sine_of};

use table::SINE;

// The entry of an angle. An angle over 900 counts as 900.
pub fn sine_entry(tenths: u32) -> u64
    ensures { result ≡ sine_entry_of tenths }
{
    let k = tenths as usize;
    if 900 < k {
        return SINE[900];
    }
    SINE[k]
}

// The sine: the entry divided by 2^50.
pub fn sine(tenths: u32) -> f64
    ensures { result ≡ sine_of tenths }
{
    let entry = sine_entry(tenths);
    (entry as f64) / 1125899906842624.0
}
