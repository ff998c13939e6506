// Tests of single fields. They all run to their end, since a file is mostly good.
ghost use Rattle.std.specs.Prelude.{◌≡◌, ◌+◌, ◌*◌, ◌≤◌, length};
ghost use Rattle.file_field.specs.Test.{in_range, all_within, is_direction, is_point, zero_words};

use crate::read::u64_at;
use math::Vec3;

// lo <= x and x <= hi
pub fn in_range(lo: f64, x: f64, hi: f64) -> bool
    ensures { result ≡ in_range lo x hi }
{
    (lo <= x) & (x <= hi)
}

// Each component is within plus and minus the most.
pub fn all_within(v: Vec3, most: f64) -> bool
    ensures { result ≡ all_within v most }
{
    in_range(-most, v.x, most) & in_range(-most, v.y, most) & in_range(-most, v.z, most)
}

// A direction: neither short nor long.
pub fn is_direction(v: Vec3) -> bool
    ensures { result ≡ is_direction v }
{
    all_within(v, 2.0) & in_range(0.25, v.length_sq(), 4.0)
}

// A point of the space that parts lie in.
pub fn is_point(v: Vec3) -> bool
    ensures { result ≡ is_point v }
{
    all_within(v, 10000.0)
}

// The n words of eight bytes from `at` on are all zero bits.
pub fn zero_words(file: &[u8], at: usize, n: usize) -> bool
    requires { at + 8 * n ≤ length file.now }
    ensures { result ≡ zero_words file.now at n }
{
    for k in 0..n {
        if u64_at(file, at + 8 * k) != 0 {
            return false;
        }
    }
    true
}
