// The decimal digits of a whole number.
ghost use Rattle.std.specs.Prelude.{◌≡◌, ◌+◌, ◌≤◌, length};
ghost use Rattle.num_text.specs.Number.{digits, width};
ghost use Rattle.num_text.specs.Put.{Put};

// How many decimal digits n has.
pub(crate) fn width_of(n: u64) -> usize
    ensures { result ≡ width n }
{
    let mut k: usize = 1;
    let mut v: u64 = n;
    // A while: one digit less each time, until one is left.
    while 10 <= v {
        v /= 10;
        k += 1;
    }
    k
}

// The k lowest digits of n, from the position `at` on, where they fit. The position after them.
// No Text: the places are filled from the last to the first.
pub(crate) fn put_digits(out: &mut [u8], at: usize, n: u64, k: usize) -> usize
    requires { at + k ≤ length out.old }
    ensures { Put out.old at (digits k n) out.new result }
{
    let mut v: u64 = n;
    for i in (0..k).rev() {
        out[at + i] = b'0' + (v % 10) as u8;
        v /= 10;
    }
    at + k
}
