// Whole numbers of any length, decided by their value.
ghost use Rattle.std.specs.Prelude.{◌≡◌, ◌+◌, ◌-◌, ◌*◌, ◌^◌, ◌≤◌, true};
ghost use Rattle.obj_number.specs.Whole.{is_digit, capped, digits_field, whole_field};

// Where numbers stop. No slice has so many bytes, so a text defines fewer vertices.
const CAP: u64 = 0x8000_0000_0000_0000;

fn is_digit(b: u8) -> bool
    ensures { result ≡ is_digit b }
{
    48 <= b && b <= 57
}

// The number with one more digit.
fn append(n: u64, b: u8) -> u64
    requires { is_digit b ≡ true }
    ensures { result ≡ capped (n * 10 + (b - 48)) }
{
    if n < 0xccc_cccc_cccc_cccc {
        return n * 10 + (b - 48) as u64;
    }
    if n < 0x1000_0000_0000_0000 {
        let more = n * 10 + (b - 48) as u64;
        if more < CAP {
            return more;
        }
    }
    CAP
}

// The number with the digits s after those of n, up to the cap; none where a byte is no digit.
pub fn digits(s: &[u8], n: u64) -> Option<u64>
    requires { n ≤ 2 ^ 63 }
    ensures { result ≡ digits_field n s.now }
{
    let mut value = n;
    for &b in s {
        if !is_digit(b) {
            return None;
        }
        value = append(value, b);
    }
    Some(value)
}

// A field as a whole number: digits alone, one at least.
pub fn whole(field: &[u8]) -> Option<u64>
    ensures { result ≡ whole_field field.now }
{
    if field.len() == 0 {
        return None;
    }
    digits(field, 0)
}
