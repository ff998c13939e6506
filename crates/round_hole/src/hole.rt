// Whether directions go all the way round.
ghost use Rattle.std.specs.Prelude.{◌≡◌, ◌≤◌, ◌<◌, nat_abs, length};
ghost use Rattle.round_hole.specs.Direction as definition;
ghost use Rattle.round_hole.specs.Direction.{cross_of, dot_of, some_follows, goes_round_of};
ghost use Rattle.round_hole.specs.Work.{Near, SomeBetween, TrueIfFound, direction_at, directions_in};

use crate::cells::unpack;
use crate::direction::Direction;

// The cross product, exact: its factors are below 2^22, so that it is at most 2^45, and 100000 times it fits an i64.
fn cross(a: Direction, b: Direction) -> i64
    requires fact_1 { Near a }
    requires fact_2 { Near b }
    ensures fact_1 { result ≡ cross_of a b }
    ensures fact_2 { nat_abs result ≤ 35184372088832 }
{
    a.u * b.v - a.v * b.u
}

// The dot product, exact in the same way.
fn dot(a: Direction, b: Direction) -> i64
    requires fact_1 { Near a }
    requires fact_2 { Near b }
    ensures fact_1 { result ≡ dot_of a b }
    ensures fact_2 { nat_abs result ≤ 35184372088832 }
{
    a.u * b.u + a.v * b.v
}

// Whether b lies ahead of a by less than 0.2 rad.
pub fn follows(a: Direction, b: Direction) -> bool
    requires fact_1 { Near a }
    requires fact_2 { Near b }
    ensures { result ≡ definition.follows a b }
{
    let cross = cross(a, b);
    let dot = dot(a, b);
    (0 < cross) & (100000 * cross < 20271 * dot)
}

// Whether some direction from cell lo to before cell hi follows a.
fn some_between(cells: &[f64], a: Direction, lo: usize, hi: usize) -> bool
    requires fact_1 { Near a }
    requires fact_2 { lo ≤ hi }
    requires fact_3 { hi ≤ length cells.now }
    ensures { SomeBetween result cells.now a lo hi }
{
    for i in lo..hi {
        if follows(a, unpack(cells[i])) {
            return true;
        }
    }
    false
}

// Whether some direction of the w cells from place `from` of n on follows a, round the end.
fn some_from(cells: &[f64], n: usize, a: Direction, from: usize, w: usize) -> bool
    requires fact_1 { Near a }
    requires fact_2 { n ≤ length cells.now }
    requires fact_3 { from ≤ n }
    requires fact_4 { w ≤ n }
    ensures { TrueIfFound result cells.now a n }
{
    let room = n - from;
    if w <= room {
        return some_between(cells, a, from, from + w);
    }
    if some_between(cells, a, from, n) {
        return true;
    }
    some_between(cells, a, 0, w - room)
}

// The place w places before place k of n, round the end.
fn back(n: usize, k: usize, w: usize) -> usize
    requires { (k < n) × (w ≤ n) }
    ensures { result ≤ n }
{
    if w <= k {
        return k - w;
    }
    n - (w - k)
}

// Whether one of the w cells from place k of n on follows a, or one of the w before it.
fn some_near(cells: &[f64], n: usize, a: Direction, k: usize, w: usize) -> bool
    requires fact_1 { Near a }
    requires fact_2 { n ≤ length cells.now }
    requires fact_3 { k < n }
    requires fact_4 { w ≤ n }
    ensures { TrueIfFound result cells.now a n }
{
    if some_from(cells, n, a, k, w) {
        return true;
    }
    some_from(cells, n, a, back(n, k, w), w)
}

// Whether some direction of the first n cells follows the one in cell k. In a modeller's order a facet before or after k's own is near by, whichever
// way they run and however many strips a column has: so the places near k come first, twice as many each time, and then all. So the time is that of
// the distance to the nearest follower. Where to begin is this program's choice; the answer is the same from any place.
fn some_follows(cells: &[f64], n: usize, k: usize) -> bool
    requires fact_1 { k < n }
    requires fact_2 { n ≤ length cells.now }
    ensures { result ≡ some_follows (direction_at cells.now k) (directions_in n cells.now) }
{
    let a = unpack(cells[k]);
    let mut w: usize = 8;
    // A while: w doubles.
    while w < n / 4 {
        if some_near(cells, n, a, k, w) {
            return true;
        }
        w *= 2;
    }
    some_between(cells, a, 0, n)
}

// Whether the directions of the first n cells go round: there are some, and each is followed by one of them.
pub fn goes_round(cells: &[f64], n: usize) -> bool
    requires { n ≤ length cells.now }
    ensures { result ≡ goes_round_of (directions_in n cells.now) }
{
    if n == 0 {
        return false;
    }
    for k in 0..n {
        if !some_follows(cells, n, k) {
            return false;
        }
    }
    true
}
