// Inches as text: a whole number and a fraction in lowest terms.
ghost use Rattle.std.specs.Prelude.{◌<◌};
ghost use Rattle.num_text.specs.Number.{numeral};
ghost use Rattle.num_text.specs.Text.{Adds};
ghost use Rattle.num_inch.specs.Inch.{fraction, mixed, inch_text};

use num_text::decimal::LIMIT;
use num_text::text::Text;

// n in one digit or two, without counting the digits first, which `put_number` has to.
fn put_small(text: &mut Text<'_>, n: u64)
    requires { n < 100 }
    ensures { Adds text.old (numeral n) text.new }
{
    if n < 10 {
        text.put_byte(b'0' + n as u8);
        return;
    }
    text.put_byte(b'0' + (n / 10) as u8);
    text.put_byte(b'0' + (n % 10) as u8);
}

// k / 64 in lowest terms: both are halved as often as k is even.
fn put_fraction(text: &mut Text<'_>, k: u64)
    requires positive { 0 < k }
    requires below { k < 64 }
    ensures { Adds text.old (fraction k) text.new }
{
    let halvings = u64::trailing_zeros(k);
    put_small(text, k >> halvings);
    text.put_byte(b'/');
    put_small(text, 64 >> halvings);
}

// A whole number and k 64ths, without what is zero; `0` where both are.
fn put_mixed(text: &mut Text<'_>, whole: u64, k: u64)
    requires { k < 64 }
    ensures { Adds text.old (mixed whole k) text.new }
{
    if k == 0 {
        text.put_number(whole);
        return;
    }
    if whole == 0 {
        put_fraction(text, k);
        return;
    }
    text.put_number(whole);
    text.put_byte(b' ');
    put_fraction(text, k);
}

// The length x mm in inches; nothing where the decimal writer takes no such number.
pub fn put_inch(text: &mut Text<'_>, x: f64)
    ensures { Adds text.old (inch_text x) text.new }
{
    if x >= 0.0 {
        if x < LIMIT {
            let n = crate::sixty_fourth::nearest_64th(x);
            put_mixed(text, n / 64, n % 64);
            text.put_bytes(b" in");
        }
    }
}
