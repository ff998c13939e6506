// Corners of an accepted file, read with no test for a NaN: its coordinates are within 10,000. In loops over corners the test costs time.
ghost use Rattle.std.specs.Prelude.{◌≡◌, ◌+◌, ◌*◌, ◌≤◌, length};
ghost use Rattle.num_float.specs.Within.{Within};
ghost use Rattle.file_job.specs.math.specs.Size.{VecWithin};
ghost use Rattle.file_job.specs.file_field.specs.Field.{f64_at, vec_at_of};

use file_job::file_field::read::u64_at;
use file_job::math::Vec3;

// The f64 of the eight bytes at `at`.
fn coordinate(file: &[u8], at: usize) -> f64
    requires fact_1 { at + 8 ≤ length file.now }
    requires fact_2 { Within (f64_at file.now at) 10000 }
    ensures { result ≡ f64_at file.now at }
{
    f64::from_bits(u64_at(file, at))
}

// Vertex i.
pub fn corner(file: &[u8], i: usize) -> Vec3
    requires fact_1 { 24 * i + 24 ≤ length file.now }
    requires fact_2 { VecWithin (vec_at_of file.now (24 * i)) 10000 }
    ensures { result ≡ vec_at_of file.now (24 * i) }
{
    let at = 24 * i;
    Vec3 {
        x: coordinate(file, at),
        y: coordinate(file, at + 8),
        z: coordinate(file, at + 16),
    }
}
