// Floats as decimal text: the exact value, rounded to at most three places, an exact half to the even digit.
ghost use Rattle.std.specs.Prelude.{◌≡◌, ◌*◌, ◌^◌, ◌≤◌, ◌<◌, ◌++◌, length};
ghost use Rattle.std.specs.Float.Ieee.Nearest.{closest};
ghost use Rattle.std.specs.Float.Ieee.Positive.{num, den};
ghost use Rattle.num_text.specs.Decimal.{scaled, Writes};
ghost use Rattle.num_text.specs.Work.{Divided};
ghost use Rattle.num_text.specs.Number.{digits, numeral, after_point};
ghost use Rattle.num_text.specs.Put.{Put};

use num_real::bits::{Binary, decompose};
use refusal::Refusal;

// 2^60, where the numbers end that the decimal writer takes.
pub const LIMIT: f64 = 1152921504606846976.0;

// v / 2^s to the nearest whole number, an exact half to the even one. No branch, since it would go either way at random.
fn nearest_shift(v: u64, s: u64) -> u64
    requires fact_1 { v < 2 ^ 63 }
    requires fact_2 { 0 < s }
    requires fact_3 { s < 64 }
    ensures { result ≡ closest v (2 ^ s) }
{
    let half: u64 = 1 << (s - 1);
    let odd: u64 = (v >> s) % 2;
    (v + (half - 1) + odd) >> s
}

// A rounded decimal: the whole number before the point, and the digits after it as a number.
#[derive(Clone, Copy)]
struct Parts {
    whole: u64,
    part: u64,
}

// x rounded to so many places. x is digits * 2^shift / 2^1074: a whole number, or a fraction of 2^s, which from s = 64 on is below a half.
fn rounded(x: f64, places: u32) -> Parts
    requires fact_1 { num x < 2 ^ 60 * den x }
    requires fact_2 { places ≤ 3 }
    ensures { Divided (scaled x places) (10 ^ places) result.whole result.part }
{
    let Binary { digits, shift } = decompose(x);
    if 1074 <= shift {
        return Parts {
            whole: digits << (shift - 1074),
            part: 0,
        };
    }
    let s = 1074 - shift;
    if 64 <= s {
        return Parts { whole: 0, part: 0 };
    }
    let ten = u64::pow(10, places);
    let n = nearest_shift(digits * ten, s);
    Parts {
        whole: n / ten,
        part: n % ten,
    }
}

// A whole number, and after it the point and the digits of the fraction, if it has any, from the start of `out` on. How many bytes.
fn put_pointed(out: &mut [u8], whole: u64, part: u64, places: usize) -> usize
    requires fact_1 { whole < 10 ^ 19 }
    requires fact_2 { places ≤ 3 }
    requires fact_3 { 24 ≤ length out.old }
    ensures { Put out.old 0 (numeral whole ++ after_point (digits places part)) out.new result }
{
    let k = crate::digits::width_of(whole);
    let end = crate::digits::put_digits(out, 0, whole, k);
    if places == 0 {
        return end;
    }
    out[end] = b'.';
    crate::digits::put_digits(out, end + 1, part, places)
}

// x with so many places, from the start of `out` on. How many bytes.
pub fn decimal(x: f64, places: u32, out: &mut [u8]) -> Result<usize, Refusal>
    ensures { Writes x places out.old out.new result }
{
    if out.len() < 24 {
        return Err(Refusal::NoDecimal);
    }
    if 3 < places {
        return Err(Refusal::NoDecimal);
    }
    if x >= 0.0 {
        if x < LIMIT {
            let Parts { whole, part } = rounded(x, places);
            return Ok(put_pointed(out, whole, part, places as usize));
        }
    }
    Err(Refusal::NoDecimal)
}
