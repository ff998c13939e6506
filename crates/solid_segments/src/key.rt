// The key of a coordinate, as the columns hold it.
ghost use Rattle.std.specs.Prelude.{◌≡◌};
ghost use Rattle.num_float.specs.Within.{Within};
ghost use Rattle.solid_segments.specs.Key.{segment_scale};
ghost use Rattle.solid_segments.specs.Work.{key_cell};

use num_real::rounding::round_i64;

// From 0 to 2 * 10^8, for a coordinate of an accepted part.
pub fn key_cell(x: f64) -> u32
    requires { Within x 10000 }
    ensures { result ≡ key_cell segment_scale 100000000 x }
{
    let whole = round_i64(x * 10000.0);
    (whole + 100000000) as u32
}
