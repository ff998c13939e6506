// Numbers and vectors read from a part file's bytes, little-endian.
ghost use Rattle.std.specs.Prelude.{◌≡◌, ◌+◌, ◌≤◌, length};
ghost use Rattle.file_field.specs.Field.{u32_at, u64_at, f64_at, vec_at_of};

use math::Vec3;

// The u32 of the four bytes at `at`.
pub fn u32_at(file: &[u8], at: usize) -> u32
    requires { at + 4 ≤ length file.now }
    ensures { result ≡ u32_at file.now at }
{
    u32::from_le_bytes([file[at], file[at + 1], file[at + 2], file[at + 3]])
}

// The u64 of the eight bytes at `at`.
pub fn u64_at(file: &[u8], at: usize) -> u64
    requires { at + 8 ≤ length file.now }
    ensures { result ≡ u64_at file.now at }
{
    u64::from(u32_at(file, at)) + u64::from(u32_at(file, at + 4)) * 0x1_0000_0000
}

// The f64 of the eight bytes at `at`.
pub fn f64_at(file: &[u8], at: usize) -> f64
    requires { at + 8 ≤ length file.now }
    ensures { result ≡ f64_at file.now at }
{
    math::num_real::bits::from_bits(u64_at(file, at))
}

// The three f64 from `at` on.
pub fn vec_at(file: &[u8], at: usize) -> Vec3
    requires { at + 24 ≤ length file.now }
    ensures { result ≡ vec_at_of file.now at }
{
    Vec3 {
        x: f64_at(file, at),
        y: f64_at(file, at + 8),
        z: f64_at(file, at + 16),
    }
}
