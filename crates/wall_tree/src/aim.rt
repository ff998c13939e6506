// A ray as the boxes of a tree are tried: on each axis the bound that it meets first is known beforehand, so that a box needs no test for a NaN.
ghost use Rattle.std.specs.Prelude.{◌≡◌, cond, ◌+◌, ◌*◌, ◌≤◌, ◌<◌, length, get_or};
ghost use Rattle.std.specs.Float.{nan};
ghost use Rattle.std.specs.Float.Ieee.{lt};
ghost use Rattle.num_float.specs.Order.{lesser};
ghost use Rattle.num_float.specs.Work.{greater};
ghost use Rattle.math.specs.Vector.{zero};
ghost use Rattle.wall_ray.specs.Slab.{meets};
ghost use Rattle.wall_tree.specs.Work.{start_of, Aimed, Sides, opens_at};

use math::Vec3;
use wall_ray::slab::{inverse, meeting};
use wall_ray::strike::Ray;

// origin and inv: the ray's start and inverse direction; the start is a NaN on an axis that tells nothing. x, y and z: which of a box's six numbers the
// ray meets first on each axis.
#[derive(Clone, Copy)]
pub struct Aim {
    pub origin: Vec3,
    pub inv: Vec3,
    pub x: usize,
    pub y: usize,
    pub z: usize,
}

// Of the numbers `base` and `base + 3` of a box, the one that is met first.
fn near_at(i: f64, base: usize) -> usize
    requires { base ≤ 2 }
    ensures { result ≡ cond (lt i zero) (base + 3) base }
{
    if i < 0.0 { base + 3 } else { base }
}

// The start o, where i has a sign.
fn start_at(o: f64, i: f64) -> f64
    ensures { result ≡ start_of o i }
{
    if i < 0.0 {
        return o;
    }
    if 0.0 < i {
        return o;
    }
    0.0 / 0.0
}

pub fn aim_of(ray: Ray) -> Aim
    ensures fact_1 { Aimed ray result }
    ensures fact_2 { Sides result }
{
    let inv = inverse(ray);
    let origin = Vec3 {
        x: start_at(ray.origin.x, inv.x),
        y: start_at(ray.origin.y, inv.y),
        z: start_at(ray.origin.z, inv.z),
    };
    let x = near_at(inv.x, 0);
    let y = near_at(inv.y, 1);
    let z = near_at(inv.z, 2);
    Aim {
        origin,
        inv,
        x,
        y,
        z,
    }
}

// The greater of two; t where a is a NaN.
fn later(t: f64, a: f64) -> f64
    ensures { result ≡ greater t a }
{
    if t < a { a } else { t }
}

// The lesser of two; t where b is a NaN.
fn sooner(t: f64, b: f64) -> f64
    ensures { result ≡ lesser t b }
{
    if b < t { b } else { t }
}

// Where the ray meets the bound that stands at place k.
fn met(boxes: &[f64], k: usize, o: f64, i: f64) -> f64
    requires { k < length boxes.now }
    ensures { result ≡ meets (get_or boxes.now k nan) o i }
{
    meeting(boxes[k], o, i)
}

// Whether box j is to be opened: the ray passes it, and enters it no later than the limit.
pub fn is_open(boxes: &[f64], j: usize, a: Aim, limit: f64) -> bool
    requires fact_1 { 6 * j + 6 ≤ length boxes.now }
    requires fact_2 { Sides a }
    ensures { result ≡ opens_at boxes.now j a limit }
{
    let at = 6 * j;
    let nx = at + a.x;
    let ny = at + a.y;
    let nz = at + a.z;
    let fx = at + (3 - a.x);
    let fy = at + (5 - a.y);
    let fz = at + (7 - a.z);
    let o = a.origin;
    let i = a.inv;
    let ex = later(0.0, met(boxes, nx, o.x, i.x));
    let lx = sooner(limit, met(boxes, fx, o.x, i.x));
    let ey = later(ex, met(boxes, ny, o.y, i.y));
    let ly = sooner(lx, met(boxes, fy, o.y, i.y));
    let enter = later(ey, met(boxes, nz, o.z, i.z));
    let leave = sooner(ly, met(boxes, fz, o.z, i.z));
    enter <= leave
}
