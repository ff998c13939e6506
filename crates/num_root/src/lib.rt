// The square root of an f64, correctly rounded, by the number's bits.
//
// A guess is made with floats, of which nothing is promised. A whole-number test then either shows which of three
// neighbours is the nearest to the exact root, or hands over to a bisection, which needs no guess.
#![tactic(auto)]

ghost use Rattle.std.specs.Prelude.{◌≡◌, ◌+◌, ◌*◌, ◌^◌, ◌<◌, ◌≤◌, false, from_bits, to_bits};
ghost use Rattle.std.specs.Float.{binary64};
ghost use Rattle.std.specs.Float.Ieee.{round};
ghost use Rattle.num_root.specs.Work.{Near, OutOfRange, Excess, DigitsOf};
ghost use Rattle.num_root.specs.Root.{root, twice_root};

// The leading digit of a normal number, which its pattern leaves out, and the digits after it.
const LEADING: u64 = 0x0010_0000_0000_0000;

const FRACTION: u64 = 0x000f_ffff_ffff_ffff;

const FAR: u64 = 0x8000_0000_0000_0000;

// Halley's step from a towards the root of s. Its two constants would be 3; these are tuned to the errors of the first guess.
fn first_step(s: f64, a: f64) -> f64 {
    let t = a * a;
    a * (t + 3.000928682960215 * s) / (3.000928788012839 * t + s)
}

// Halley's step again, written as a correction of g so that its own rounding errors are small.
fn second_step(s: f64, g: f64) -> f64 {
    let t = g * g;
    g + (g + g) * (s - t) / (3.0 * t + s)
}

// One less than the 53 digits of a y from 1 to 2; else some number.
fn just_below(y: f64) -> u64
    ensures { result < 2 ^ 53 }
{
    if y < 4.0 {
        let bits = f64::to_bits(y);
        if 0x3fe0_0000_0000_0000 < bits {
            let c = bits - 0x3fe0_0000_0000_0001;
            if c < 0x0020_0000_0000_0000 {
                return c;
            }
        }
    }
    0
}

// A number that is meant to be just below the root of q * 2^odd * 2^52. Nothing is promised of how near it is.
fn guess(q: u64, odd: u64) -> u64
    requires { (2 ^ 52 ≤ q) × (q < 2 ^ 53) × (odd < 2) }
    ensures { result < 2 ^ 53 }
{
    let bits = q + ((1022 + odd) << 52);
    let s = f64::from_bits(bits);
    // half the exponent, by halving the pattern
    let a = f64::from_bits(0x1ff7_6aaf_6a77_7bd5 + (bits >> 1));
    just_below(second_step(s, first_step(s, a)))
}

// What a difference that is out of range says: 2^64 - 1 for one that wrapped, since it is negative, and 2^63 for a large one.
fn out_of_range(d: u64) -> u64
    ensures { OutOfRange d result }
{
    if d < FAR { FAR } else { 0xffff_ffff_ffff_ffff }
}

// m * 2^52 - c * c: exact below 2^63, 2^63 where it is large, and above that where it is negative.
// With c = h * 2^27 + l it is ((m - 4hh) * 2^24 - hl) * 2^28 - ll.
fn excess(m: u64, c: u64) -> u64
    requires { (m < 2 ^ 54) × (c < 2 ^ 54) }
    ensures { Excess (m * 2 ^ 52) c result }
{
    let h = c >> 27;
    let l = c & 0x7ff_ffff;
    let d = std::num::wrapping_sub_u64(m, h * h * 4);
    if 0x8000_0000 <= d {
        return out_of_range(d);
    }
    let t = std::num::wrapping_sub_u64(d * 0x100_0000, h * l);
    if 0x8_0000_0000 <= t {
        return out_of_range(t);
    }
    std::num::wrapping_sub_u64(t * 0x1000_0000, l * l)
}

// The whole number nearest the root of m * 2^52, by halving an interval.
fn bisect(m: u64) -> u64
    requires { (2 ^ 52 ≤ m) × (m < 2 ^ 54) }
    ensures { Near (m * 2 ^ 52) result }
{
    let mut lo: u64 = LEADING;
    let mut hi: u64 = 0x0020_0000_0000_0000;
    // A while: the interval is halved.
    while lo + 1 < hi {
        let mid = (lo + hi) / 2;
        if FAR < excess(m, mid) {
            hi = mid;
        } else {
            lo = mid;
        }
    }
    if lo < excess(m, lo) { lo + 1 } else { lo }
}

// The whole number nearest the root of m * 2^52: c or one of the two after it, if the excess shows that, or else by bisection.
fn certify(m: u64, c: u64) -> u64
    requires { (2 ^ 52 ≤ m) × (m < 2 ^ 54) × (c < 2 ^ 53) }
    ensures { Near (m * 2 ^ 52) result }
{
    let e = excess(m, c);
    if e <= 5 * c + 6 {
        return c + ((c < e) as u64) + ((3 * c + 2 < e) as u64);
    }
    bisect(m)
}

// The pattern of the root of q * 2^e units of 2^-2148, that is, of the square of the smallest positive f64.
fn positive(q: u64, e: u64) -> u64
    requires { (2 ^ 52 ≤ q) × (q < 2 ^ 53) × (1000 ≤ e) × (e ≤ 3200) }
    ensures { result ≡ to_bits binary64 (round binary64 false (twice_root (q * 2 ^ e)) (2 ^ 1075)) }
{
    let odd = e & 1;
    let k = (e - 52) >> 1;
    let m = q << odd;
    certify(m, guess(q, odd)) + (k << 52)
}

// A positive number as q * 2^e such units, with 53 digits in q.
#[derive(Clone, Copy)]
struct Parts {
    q: u64,
    e: u64,
}

// The number with the pattern b, a subnormal one shifted up to 53 digits.
fn parts_of(b: u64) -> Parts
    requires { (0 < b) × (b < 0x7FF0000000000000) }
    ensures { DigitsOf b result.q result.e }
{
    if LEADING <= b {
        return Parts {
            q: (b & FRACTION) + LEADING,
            e: (b >> 52) + 1073,
        };
    }
    let s = u64::leading_zeros(b) - 11;
    let n = s as u64;
    Parts {
        q: b << n,
        e: 1074 - n,
    }
}

// The root of the f64 with the pattern b, as a pattern. A NaN, whatever its pattern, and the negative numbers give one NaN.
pub fn sqrt_bits(b: u64) -> u64
    ensures { result ≡ to_bits binary64 (root (from_bits binary64 b)) }
{
    if b < 0x7ff0_0000_0000_0000 {
        if b == 0 {
            return 0;
        }
        let s = parts_of(b);
        return positive(s.q, s.e);
    }
    if b == 0x7ff0_0000_0000_0000 {
        return b;
    }
    if b == 0x8000_0000_0000_0000 {
        return b;
    }
    0x7ff8_0000_0000_0000
}

// The root of an f64.
// Not std's sqrt: that it is the same is a proof of its own, and the promise is by this definition.
pub fn sqrt(x: f64) -> f64
    ensures { result ≡ root x }
{
    if 0.0 < x {
        return f64::from_bits(sqrt_bits(f64::to_bits(x)));
    }
    if x == 0.0 {
        return x;
    }
    0.0 / 0.0
}
