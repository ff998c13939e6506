// Rust's round and ceil of f64, with the casts of their results to whole numbers.
ghost use Rattle.std.specs.Prelude.{◌≡◌, ◌*◌, ◌^◌, ◌<◌};
ghost use Rattle.std.specs.Float.Ieee.Positive.{num, den};
ghost use Rattle.num_real.specs.Rounding.{round_half_up, ceil_div, round_i64_of, ceil_usize_of};

use crate::bits::{Binary, decompose};
use crate::select::abs;

// The size of x, which is digits * 2^shift / 2^1074, to the nearest whole number, an exact half up.
fn round_size(x: f64) -> u64
    requires { num x < 2 ^ 63 * den x }
    ensures { (result ≡ round_half_up (num x) (den x)) × (result < 2 ^ 63) }
{
    let Binary { digits, shift } = decompose(x);
    if 1074 <= shift {
        return digits << (shift - 1074);
    }
    let down = 1074 - shift;
    // The digits are below 2^53, so they come to less than a half.
    if 54 <= down {
        return 0;
    }
    let half: u64 = 1 << (down - 1);
    (digits + half) >> down
}

// x.round() as i64
// Not std's round: that it is the same is a proof of its own, and the promise is by this definition.
pub fn round_i64(x: f64) -> i64
    ensures { result ≡ round_i64_of x }
{
    let size = abs(x);
    if size >= 9223372036854775808.0 {
        if x < 0.0 {
            return -9223372036854775808;
        }
        return 9223372036854775807;
    }
    let whole = round_size(size) as i64;
    if x < 0.0 {
        return -whole;
    }
    whole
}

// The size of x, which is not zero, to the least whole number that is not below it.
fn ceil_size(x: f64) -> u64
    requires fact_1 { 0 < num x }
    requires fact_2 { num x < 2 ^ 64 * den x }
    ensures { result ≡ ceil_div (num x) (den x) }
{
    let Binary { digits, shift } = decompose(x);
    if 1074 <= shift {
        return digits << (shift - 1074);
    }
    let down = 1074 - shift;
    // The digits are below 2^53, so they come to less than one.
    if 53 <= down {
        return 1;
    }
    let one: u64 = 1 << down;
    (digits + (one - 1)) >> down
}

// x.ceil() as usize
pub fn ceil_usize(x: f64) -> usize
    ensures { result ≡ ceil_usize_of x }
{
    if x >= 18446744073709551616.0 {
        return 18446744073709551615;
    }
    if x > 0.0 {
        return ceil_size(x) as usize;
    }
    0
}
