// Directions in the cells of a slice of f64, one to a cell: u and v, each counted from -2^20 on, are the two halves of the cell's bits.
ghost use Rattle.std.specs.Prelude.{◌≡◌};
ghost use Rattle.round_hole.specs.Work.{Packable, Near, pack_of, unpack_of};

use crate::direction::Direction;
use num_real::bits::{from_bits, to_bits};

// The cell of a direction.
pub fn pack(d: Direction) -> f64
    requires { Packable d }
    ensures { result ≡ pack_of d }
{
    let high = (d.u + 1048576) as u64;
    let low = (d.v + 1048576) as u64;
    from_bits(high * 4294967296 + low)
}

// The direction of a cell. Of any other f64 it is some direction too.
pub fn unpack(x: f64) -> Direction
    ensures fact_1 { result ≡ unpack_of x }
    ensures fact_2 { Near result }
{
    let bits = to_bits(x);
    let high = (bits / 4294967296 % 4194304) as i64;
    let low = (bits % 4194304) as i64;
    Direction {
        u: high - 1048576,
        v: low - 1048576,
    }
}
