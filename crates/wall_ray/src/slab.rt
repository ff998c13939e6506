// The stretch of a ray within a box: the slab formula of dfm.rs's `Bvh::raycast`.
ghost use Rattle.std.specs.Prelude.{◌≡◌, ◌<◌};
ghost use Rattle.solid_polygon.specs.Work.{corner_at, Corners};
ghost use Rattle.solid_boxes.specs.Bounds.{hull_of, widened, e_6, padded};
ghost use Rattle.wall_ray.specs.Slab.{meets, moved, slab_of, reached_in};
ghost use Rattle.wall_ray.specs.Strike.{inverse_of};

use crate::strike::Ray;
use math::Vec3;
use num_real::select::{max, min};
use solid_boxes::bounds::Bounds;
use solid_boxes::own::run_box;

// What is left of a ray, in lengths of its direction.
// No Option: a span is empty where its end is before its start, by the formula's own numbers.
#[derive(Clone, Copy)]
pub struct Span {
    pub t0: f64,
    pub t1: f64,
}

impl Span {
    // Within one axis more, of which a and b are where the ray meets the bounds.
    fn narrow(self, a: f64, b: f64) -> Span
        ensures { result ≡ moved self a b }
    {
        // Only a NaN differs from itself.
        if (a != a) | (b != b) {
            return self;
        }
        if a <= b {
            return Span {
                t0: max(self.t0, a),
                t1: min(self.t1, b),
            };
        }
        Span {
            t0: max(self.t0, b),
            t1: min(self.t1, a),
        }
    }

    // Whether something is left, and t is not before it.
    fn is_reached(self, t: f64) -> bool
        ensures { result ≡ reached_in self t }
    {
        (self.t0 <= self.t1) & (self.t0 <= t)
    }
}

// One over each component of the direction.
pub fn inverse(ray: Ray) -> Vec3
    ensures { result ≡ inverse_of ray }
{
    Vec3 {
        x: 1.0 / ray.dir.x,
        y: 1.0 / ray.dir.y,
        z: 1.0 / ray.dir.z,
    }
}

// Where a ray from o with the inverse direction i meets the bound x of an axis.
pub fn meeting(x: f64, o: f64, i: f64) -> f64
    ensures { result ≡ meets x o i }
{
    (x - o) * i
}

// The stretch within a box, with no hit yet, of the ray from o with the inverse direction inv.
fn slab(b: Bounds, o: Vec3, inv: Vec3) -> Span
    ensures { result ≡ slab_of b o inv }
{
    let s = Span {
        t0: 0.0,
        t1: 1.0 / 0.0,
    };
    let lo = b.lo;
    let hi = b.hi;
    let sx = s.narrow(meeting(lo.x, o.x, inv.x), meeting(hi.x, o.x, inv.x));
    let sy = sx.narrow(meeting(lo.y, o.y, inv.y), meeting(hi.y, o.y, inv.y));
    sy.narrow(meeting(lo.z, o.z, inv.z), meeting(hi.z, o.z, inv.z))
}

// Whether the ray from o with the inverse direction inv passes the own box of the n corners from vertex `first` on, and meets t no sooner.
pub fn is_run_reached(file: &[u8], first: usize, n: usize, o: Vec3, inv: Vec3, t: f64) -> bool
    requires fact_1 { Corners file.now first n }
    requires fact_2 { 0 < n }
    ensures { result ≡ reached_in (slab_of (padded (widened e_6 (hull_of (corner_at file.now first) n))) o inv) t }
{
    slab(run_box(file, first, n), o, inv).is_reached(t)
}
