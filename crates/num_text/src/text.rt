// Text that is being written into a lent slice.
ghost use Rattle.std.specs.Prelude.{◌≡◌, ◌+◌, ◌≤◌, ◌<◌, ◌^◌, length, take, [], ◌∷◌};
ghost use Rattle.num_text.specs.Decimal.{decimal_text};
ghost use Rattle.num_text.specs.Number.{digits, numeral, hex16, thousandths, trim, after_point};
ghost use Rattle.num_text.specs.Put.{Put};

use crate::decimal::decimal;
use crate::digits::{put_digits, width_of};
use crate::number::{fraction_length, hex_digit};

// The last place. Every slice ends before it, so no place has to lie further.
const LAST: usize = 0x8000_0000_0000_0000;

// The bytes s from the place `at` on, where all fall within the slice. A loop over two slices, which are known to lie apart, takes no memmove of C's;
// std's copy_from_slice does.
fn copy(out: &mut [u8], at: usize, s: &[u8])
    requires { at + length s.now ≤ length out.old }
    ensures { Put out.old at s.now out.new (at + length s.now) }
{
    for i in 0..s.len() {
        out[at + i] = s[i];
    }
}

// One byte at the place `at`, where that lies within the slice. The place after it.
fn place(out: &mut [u8], at: usize, b: u8) -> usize
    ensures { Put out.old at (b ∷ []) out.new result }
{
    if at < out.len() {
        out[at] = b;
        return at + 1;
    }
    if at < LAST {
        return at + 1;
    }
    at
}

// The bytes s from the place `at` on, where some may fall past the end. The place after them, which goes from turn to turn as a number.
fn clip(out: &mut [u8], at: usize, s: &[u8]) -> usize
    ensures { Put out.old at s.now out.new result }
{
    let mut next = at;
    for b in s {
        next = place(out, next, *b);
    }
    next
}

// 16 hexadecimal digits from the place `at` on, the highest first. The place after them.
fn digits_of_bits(out: &mut [u8], at: usize, bits: u64) -> usize
    ensures { Put out.old at (hex16 bits) out.new result }
{
    let mut next = at;
    for k in 0..16u64 {
        next = place(out, next, hex_digit((bits >> (60 - 4 * k)) % 16));
    }
    next
}

// The slice, and where the next byte goes. What would fall past the end is lost, and counted.
#[derive(Drop)]
pub struct Text<'a> {
    pub out: &'a mut [u8],
    pub at: usize,
    ghost room: { length out.now < 2 ^ 63 },
}

impl<'a> Text<'a> {
    ghost use Rattle.num_text.specs.Text.{Adds};

    // The bytes so far, where none fell past the end.
    pub fn written(&self) -> &[u8]
        requires { self.now.at ≤ length self.now.out.now }
        ensures { result.now ≡ take self.now.at self.now.out.now }
    {
        &self.out[..self.at]
    }

    // One byte.
    pub fn put_byte(&mut self, b: u8)
        ensures { Adds self.old (b ∷ []) self.new }
    {
        self.at = place(self.out, self.at, b);
    }

    // Bytes: a plain copy where all fall within the slice.
    pub fn put_bytes(&mut self, s: &[u8])
        ensures { Adds self.old s.now self.new }
    {
        if self.at <= self.out.len() && s.len() <= self.out.len() - self.at {
            copy(self.out, self.at, s);
            self.at += s.len();
        } else {
            self.at = clip(self.out, self.at, s);
        }
    }

    // n in decimal.
    pub fn put_number(&mut self, n: u64)
        ensures { Adds self.old (numeral n) self.new }
    {
        let mut text = [0u8; 20];
        let k = width_of(n);
        put_digits(&mut text, 0, n, k);
        self.put_bytes(&text[..k]);
    }

    // 16 hexadecimal digits, the highest first.
    pub fn put_hex(&mut self, bits: u64)
        ensures { Adds self.old (hex16 bits) self.new }
    {
        self.at = digits_of_bits(self.out, self.at, bits);
    }

    // The point and three digits without the zeros at their end; nothing where all are zero.
    fn put_fraction(&mut self, n: u64)
        ensures { Adds self.old (after_point (trim (digits 3 n))) self.new }
    {
        let a = b'0' + (n / 100 % 10) as u8;
        let b = b'0' + (n / 10 % 10) as u8;
        let c = b'0' + (n % 10) as u8;
        let text = [b'.', a, b, c];
        self.put_bytes(&text[..fraction_length(a, b, c)]);
    }

    // n / 1000 without trailing zeros.
    pub fn put_thousandths(&mut self, n: u64)
        ensures { Adds self.old (thousandths n) self.new }
    {
        self.put_number(n / 1000);
        self.put_fraction(n % 1000);
    }

    // x with so many places; nothing where `decimal` takes no such number or places.
    pub fn put_decimal(&mut self, x: f64, places: u32)
        ensures { Adds self.old (decimal_text x places) self.new }
    {
        let mut text = [0u8; 24];
        let Ok(n) = decimal(x, places, &mut text) else {
            return;
        };
        self.put_bytes(&text[..n]);
    }
}
