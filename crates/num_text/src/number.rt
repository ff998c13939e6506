// The digits of numbers.
ghost use Rattle.std.specs.Prelude.{◌≡◌, ◌<◌, [], ◌∷◌, length};
ghost use Rattle.num_text.specs.Number.{hex_digit, after_point, trim};

// The byte of a hexadecimal digit.
pub(crate) fn hex_digit(d: u64) -> u8
    requires { d < 16 }
    ensures { result ≡ hex_digit d }
{
    if d < 10 {
        return b'0' + d as u8;
    }
    b'a' + (d - 10) as u8
}

// How many bytes the point and three digits take, without the zeros at their end.
pub(crate) fn fraction_length(a: u8, b: u8, c: u8) -> usize
    ensures { result ≡ length (after_point (trim (a ∷ b ∷ c ∷ []))) }
{
    if c != b'0' {
        return 4;
    }
    if b != b'0' {
        return 3;
    }
    if a != b'0' {
        return 2;
    }
    0
}
