// Boxes.
ghost use Rattle.std.specs.Prelude.{◌≡◌, false};
ghost use Rattle.std.specs.Float.Ieee.{is_nan};
ghost use Rattle.num_real.specs.Select.{min_of, max_of};
ghost use Rattle.solid_boxes.specs.Bounds.{grown, widened};
ghost use Rattle.solid_boxes.specs.Work.{joined, Tidy};

use math::Vec3;

// The lowest and the highest coordinates of what lies in it.
#[derive(Clone, Copy)]
pub struct Bounds {
    pub lo: Vec3,
    pub hi: Vec3,
}

// Rust's a.min(x), where a is no NaN.
// Not std's min: it tests for a NaN, which no coordinate is, and is asked for each corner.
fn lower(a: f64, x: f64) -> f64
    requires { is_nan a ≡ false }
    ensures { result ≡ min_of a x }
{
    if x < a {
        return x;
    }
    a
}

// Rust's a.max(x), where a is no NaN.
fn higher(a: f64, x: f64) -> f64
    requires { is_nan a ≡ false }
    ensures { result ≡ max_of a x }
{
    if a < x {
        return x;
    }
    a
}

impl Bounds {
    // The box of self, which has an inside, and a point.
    pub fn grow(self, p: Vec3) -> Bounds
        requires { Tidy self }
        ensures { result ≡ grown self p }
    {
        let lo = Vec3 {
            x: lower(self.lo.x, p.x),
            y: lower(self.lo.y, p.y),
            z: lower(self.lo.z, p.z),
        };
        let hi = Vec3 {
            x: higher(self.hi.x, p.x),
            y: higher(self.hi.y, p.y),
            z: higher(self.hi.z, p.z),
        };
        Bounds { lo, hi }
    }

    // The box of self and another.
    pub fn join(self, o: Bounds) -> Bounds
        ensures { result ≡ joined self o }
    {
        Bounds {
            lo: self.lo.min(o.lo),
            hi: self.hi.max(o.hi),
        }
    }

    // Each bound moved d outward.
    pub fn widen(self, d: f64) -> Bounds
        ensures { result ≡ widened d self }
    {
        let lo = Vec3 {
            x: self.lo.x - d,
            y: self.lo.y - d,
            z: self.lo.z - d,
        };
        let hi = Vec3 {
            x: self.hi.x + d,
            y: self.hi.y + d,
            z: self.hi.z + d,
        };
        Bounds { lo, hi }
    }
}
