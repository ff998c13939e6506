// A polygon from its run of vertices: Newell's sum, plane, centroid and area. Every loop adds in the Rust's order.
ghost use Rattle.std.specs.Prelude.{◌≡◌, ◌+◌, ◌≤◌, ◌<◌};
ghost use Rattle.solid_polygon.specs.Polygon.{after, newell_step, newell_of, corners_to, centroid_of, triangle_area, area_of_word};
ghost use Rattle.solid_polygon.specs.Work.{corner_at, Corners};
ghost use Rattle.solid_polygon.specs.Plane.{is_flat, plane_of};

use file_part::corner::corner;
use file_part::math::Vec3;

// normal . p = w for the points p of the plane.
#[derive(Clone, Copy)]
pub struct Plane {
    pub normal: Vec3,
    pub w: f64,
}

// The corner after corner k of n.
pub fn next(n: usize, k: usize) -> usize
    requires { k < n }
    ensures fact_1 { result ≡ after n k }
    ensures fact_2 { result < n }
{
    if k + 1 == n {
        return 0;
    }
    k + 1
}

// One side from a to b in Newell's sum.
fn newell_step(n: Vec3, a: Vec3, b: Vec3) -> Vec3
    ensures { result ≡ newell_step n a b }
{
    Vec3 {
        x: n.x + (a.y - b.y) * (a.z + b.z),
        y: n.y + (a.z - b.z) * (a.x + b.x),
        z: n.z + (a.x - b.x) * (a.y + b.y),
    }
}

// Newell's sum over the sides. A side begins where the one before it ends, so that each corner is read once.
fn newell(file: &[u8], first: usize, count: usize) -> Vec3
    requires fact_1 { Corners file.now first count }
    requires fact_2 { 0 < count }
    ensures { result ≡ newell_of (corner_at file.now first) count }
{
    let start = corner(file, first);
    let mut n = Vec3::ZERO;
    let mut a = start;
    for k in 1..count {
        let b = corner(file, first + k);
        n = newell_step(n, a, b);
        a = b;
    }
    newell_step(n, a, start)
}

// The corners, added.
fn corner_sum(file: &[u8], first: usize, count: usize) -> Vec3
    requires { Corners file.now first count }
    ensures { result ≡ corners_to (corner_at file.now first) count }
{
    let mut sum = Vec3::ZERO;
    for k in 0..count {
        sum = sum.add(corner(file, first + k));
    }
    sum
}

// Whether `Polygon::new` would refuse the polygon (refusal 8).
pub fn is_flat(file: &[u8], first: usize, count: usize) -> bool
    requires fact_1 { Corners file.now first count }
    requires fact_2 { 0 < count }
    ensures { result ≡ is_flat (corner_at file.now first) count }
{
    let n = newell(file, first, count);
    // The root of such a square is 1e-9 at least, so that most polygons need no root here.
    if 1e-18 <= n.length_sq() {
        return false;
    }
    n.length() < 1e-14
}

impl Plane {
    // The plane of a polygon that is not flat. Its centroid is divided by the number of corners.
    pub fn new(file: &[u8], first: usize, count: usize) -> Plane
        requires fact_1 { Corners file.now first count }
        requires fact_2 { 0 < count }
        requires fact_3 { count ≤ 64 }
        ensures { result ≡ plane_of (corner_at file.now first) count }
    {
        let n = newell(file, first, count);
        let normal = n.div(n.length());
        let centroid = corner_sum(file, first, count).div(count as f64);
        Plane {
            normal,
            w: normal.dot(centroid),
        }
    }
}

// dfm.rs's own centroid, multiplied by one over the number of corners.
pub fn centroid(file: &[u8], first: usize, count: usize) -> Vec3
    requires fact_1 { Corners file.now first count }
    requires fact_2 { count ≤ 64 }
    ensures { result ≡ centroid_of (corner_at file.now first) count }
{
    corner_sum(file, first, count).mul(1.0 / count as f64)
}

// The triangle of corners 0, k + 1 and k + 2.
fn triangle_area(file: &[u8], first: usize, k: usize) -> f64
    requires { Corners file.now first (k + 3) }
    ensures { result ≡ triangle_area (corner_at file.now first) k }
{
    let origin = corner(file, first);
    let a = corner(file, first + (k + 1)).sub(origin);
    let b = corner(file, first + (k + 2)).sub(origin);
    a.cross(b).length() * 0.5
}

// The area, by the triangles of a fan.
pub fn poly_area(file: &[u8], first: usize, count: usize) -> f64
    requires fact_1 { Corners file.now first count }
    requires fact_2 { 3 ≤ count }
    ensures { result ≡ area_of_word (corner_at file.now first) count }
{
    let mut area = 0.0;
    for k in 0..count - 2 {
        area += triangle_area(file, first, k);
    }
    area
}
