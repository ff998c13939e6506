// What a ray strikes, one polygon at a time.
ghost use Rattle.std.specs.Prelude.{◌≡◌, not, ◌&&◌, ◌+◌, ◌*◌, ◌≤◌, ◌<◌, length};
ghost use Rattle.std.specs.Float.Ieee.{lt};
ghost use Rattle.list_laws.specs.Below.{all_below};
ghost use Rattle.num_real.specs.Select.{abs_of};
ghost use Rattle.math.specs.Vector.{zero, dot_of};
ghost use Rattle.solid_polygon.specs.Work.{corner_at, Corners};
ghost use Rattle.solid_faces.specs.Kept.{plane_at_of};
ghost use Rattle.wall_ray.specs.Strike.{e_12, time_of, point_of, is_within};
ghost use Rattle.wall_ray.specs.Nearest.{improves, polygon_or, time_or_zero};

use file_part::corner::corner;
use math::Vec3;
use solid_polygon::polygon::{Plane, next};

#[derive(Clone, Copy)]
pub struct Ray {
    pub origin: Vec3,
    pub dir: Vec3,
}

// What a ray strikes first, where it strikes something: the polygon, and how far along the ray it is met, in lengths of the ray's direction.
#[derive(Clone, Copy)]
pub struct Hit {
    pub polygon: usize,
    pub t: f64,
}

// The plane of polygon p, as it is kept.
pub fn plane_at(planes: &[f64], p: usize) -> Plane
    requires { 4 * p + 4 ≤ length planes.now }
    ensures { result ≡ plane_at_of planes.now p }
{
    let at = 4 * p;
    let normal = Vec3 {
        x: planes[at],
        y: planes[at + 1],
        z: planes[at + 2],
    };
    Plane {
        normal,
        w: planes[at + 3],
    }
}

// Rust's denom.abs() < 1e-12, without a branch on the sign.
pub fn is_parallel(denom: f64) -> bool
    ensures { result ≡ lt (abs_of denom) e_12 }
{
    (denom < 1e-12) & (-denom < 1e-12)
}

impl Ray {
    // How far along the ray a plane is met, where denom is the product of its normal with the direction.
    pub fn time(self, plane: Plane, denom: f64) -> f64
        requires { denom ≡ dot_of plane.normal self.dir }
        ensures { result ≡ time_of plane self }
    {
        (plane.w - plane.normal.dot(self.origin)) / denom
    }

    // The point of the ray at t.
    pub fn point(self, t: f64) -> Vec3
        ensures { result ≡ point_of self t }
    {
        self.origin.add(self.dir.mul(t))
    }
}

// Whether a strike at t comes before what is kept.
pub fn is_improved(best: Option<Hit>, t: f64) -> bool
    ensures { result ≡ improves best t }
{
    match best {
        Some(hit) => t < hit.t,
        None => true,
    }
}

// The polygon, or a number for none.
pub fn polygon_or(hit: Option<Hit>, none: usize) -> usize
    ensures { result ≡ polygon_or none hit }
{
    match hit {
        Some(hit) => hit.polygon,
        None => none,
    }
}

// t, or 0.0 for none.
pub fn time_or_zero(hit: Option<Hit>) -> f64
    ensures { result ≡ time_or_zero hit }
{
    match hit {
        Some(hit) => hit.t,
        None => 0.0,
    }
}

// Whether a plane that is met at t comes before what is kept: the three tests that need no corner.
pub fn is_reached(denom: f64, t: f64, best: Option<Hit>) -> bool
    ensures { result ≡ (not (lt (abs_of denom) e_12) && (not (lt t zero) && improves best t)) }
{
    !is_parallel(denom) & (!(t < 0.0) & is_improved(best, t))
}

// Whether q lies on the inner side of side k of the polygon of n corners from `first` on.
pub fn is_within(file: &[u8], first: usize, n: usize, normal: Vec3, q: Vec3, k: usize) -> bool
    requires fact_1 { Corners file.now first n }
    requires fact_2 { k < n }
    ensures { result ≡ is_within (corner_at file.now first) n normal q k }
{
    let a = corner(file, first + k);
    let b = corner(file, first + next(n, k));
    b.sub(a).cross(q.sub(a)).dot(normal) >= -1e-9
}

// Whether q lies on the inner side of each of the n sides.
pub fn is_inside(file: &[u8], first: usize, n: usize, normal: Vec3, q: Vec3) -> bool
    requires { Corners file.now first n }
    ensures { result ≡ all_below n (is_within (corner_at file.now first) n normal q) }
{
    for k in 0..n {
        if !is_within(file, first, n, normal, q, k) {
            return false;
        }
    }
    true
}
