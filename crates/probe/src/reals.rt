// Rust's roundings, casts, choices and the sine table.
ghost use Rattle.std.specs.Prelude.{◌≡◌};
ghost use Rattle.num_real.specs.Rounding.{round_i64_of, ceil_usize_of};
ghost use Rattle.num_real.specs.Select.{min_of, max_of, abs_of};
ghost use Rattle.num_sine.specs.Sine.{sine_entry_of, sine_of};

#[unsafe(no_mangle)]
pub extern "C" fn gablemadder_round_i64(x: f64) -> i64
    ensures { result ≡ round_i64_of x }
{
    num_real::rounding::round_i64(x)
}

#[unsafe(no_mangle)]
pub extern "C" fn gablemadder_ceil_usize(x: f64) -> usize
    ensures { result ≡ ceil_usize_of x }
{
    num_real::rounding::ceil_usize(x)
}

#[unsafe(no_mangle)]
pub extern "C" fn gablemadder_min(a: f64, b: f64) -> f64
    ensures { result ≡ min_of a b }
{
    num_real::select::min(a, b)
}

#[unsafe(no_mangle)]
pub extern "C" fn gablemadder_max(a: f64, b: f64) -> f64
    ensures { result ≡ max_of a b }
{
    num_real::select::max(a, b)
}

#[unsafe(no_mangle)]
pub extern "C" fn gablemadder_abs(x: f64) -> f64
    ensures { result ≡ abs_of x }
{
    num_real::select::abs(x)
}

#[unsafe(no_mangle)]
pub extern "C" fn gablemadder_sine_entry(tenths: u32) -> u64
    ensures { result ≡ sine_entry_of tenths }
{
    num_sine::sine_entry(tenths)
}

#[unsafe(no_mangle)]
pub extern "C" fn gablemadder_sine(tenths: u32) -> f64
    ensures { result ≡ sine_of tenths }
{
    num_sine::sine(tenths)
}
