// The direction of a vertex from its offsets along x and y.
ghost use Rattle.std.specs.Prelude.{◌≡◌};
ghost use Rattle.round_hole.specs.Direction.{length_of, whole_part_of, direction_of};

use crate::direction::Direction;
use num_real::rounding::round_i64;
use num_root::sqrt;

// The root of the sum of the squares.
pub fn length(x: f64, y: f64) -> f64
    ensures { result ≡ length_of x y }
{
    sqrt(x * x + y * y)
}

// An offset over the length, times 2^20, to the nearest whole number.
fn whole_part(x: f64, length: f64) -> i64
    ensures { result ≡ whole_part_of x length }
{
    round_i64(x / length * 1048576.0)
}

// The direction of offsets of this length.
pub fn direction(x: f64, y: f64, length: f64) -> Direction
    ensures { result ≡ direction_of x y length }
{
    Direction {
        u: whole_part(x, length),
        v: whole_part(y, length),
    }
}
