// Decimals of at most 15 digits as the nearest f64. Their digits as a whole number and the power of ten below it are both exact in f64, so
// that one division rounds right.
ghost use Rattle.std.specs.Prelude.{◌≡◌, false, cond, ◌^◌, ◌≤◌, ◌<◌};
ghost use Rattle.std.specs.Float.{binary64};
ghost use Rattle.std.specs.Float.Ieee.{round};
ghost use Rattle.obj_number.specs.Decimal.{is_sign, unsigned_field, decimal_field};

use crate::cut::find;
use crate::whole::digits;

// 10 to the power p.
fn power_of_ten(p: usize) -> u64
    requires { p ≤ 15 }
    ensures { result ≡ 10 ^ p }
{
    10u64.pow(p as u32)
}

// n / 10^p, rounded once.
fn quotient(n: u64, p: usize) -> f64
    requires fact_1 { n < 10 ^ 15 }
    requires fact_2 { p ≤ 15 }
    ensures { result ≡ round binary64 false n (10 ^ p) }
{
    let ten = power_of_ten(p);
    n as f64 / ten as f64
}

// A decimal without its sign.
fn unsigned_decimal(s: &[u8]) -> Option<f64>
    ensures { result ≡ unsigned_field s.now }
{
    let point = find(s, b'.');
    let rest = (point + 1).min(s.len());
    let places = s.len() - rest;
    let count = point + places;
    if count == 0 {
        return None;
    }
    if 15 < count {
        return None;
    }
    let n = digits(&s[..point], 0)?;
    let m = digits(&s[rest..], n)?;
    Some(quotient(m, places))
}

// How many bytes the sign takes.
fn sign_length(b: u8) -> usize
    ensures { result ≡ cond (is_sign b) 1 0 }
{
    if b == b'+' {
        return 1;
    }
    if b == b'-' {
        return 1;
    }
    0
}

// A field as a decimal; none where it is no decimal.
pub fn decimal(field: &[u8]) -> Option<f64>
    ensures { result ≡ decimal_field field.now }
{
    if field.len() == 0 {
        return None;
    }
    let b = field[0];
    let from = sign_length(b);
    let x = unsigned_decimal(&field[from..])?;
    if b == b'-' {
        return Some(-x);
    }
    Some(x)
}
