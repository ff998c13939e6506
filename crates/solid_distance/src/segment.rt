// The distance of a point from a segment.
ghost use Rattle.std.specs.Prelude.{◌≡◌};
ghost use Rattle.solid_distance.specs.Segment.{clamp_unit, along, nearest_on, seg_distance};

use math::Vec3;

// Rust's clamp(0.0, 1.0).
fn clamp_unit(x: f64) -> f64
    ensures { result ≡ clamp_unit x }
{
    if x < 0.0 {
        return 0.0;
    }
    if 1.0 < x {
        return 1.0;
    }
    x
}

// Where on the segment from a along ab the point nearest to p lies, as a fraction of ab, whose squared length is lent.
pub fn fraction_along(p: Vec3, a: Vec3, ab: Vec3, square: f64) -> f64
    ensures { result ≡ along p a ab square }
{
    if square < 1e-18 {
        return 0.0;
    }
    clamp_unit(p.sub(a).dot(ab) / square)
}

// The point of the segment from a to b that is nearest to p.
#[tactic(auto, unfolding(crate::specs::Segment::nearest_on))]
pub fn nearest_on(p: Vec3, a: Vec3, b: Vec3) -> Vec3
    ensures { result ≡ nearest_on p a b }
{
    let ab = b.sub(a);
    a.add(ab.mul(fraction_along(p, a, ab, ab.length_sq())))
}

// The distance of p from the segment from a to b.
#[tactic(auto, unfolding(crate::specs::Segment::seg_distance))]
pub fn seg_distance(p: Vec3, a: Vec3, b: Vec3) -> f64
    ensures { result ≡ seg_distance p a b }
{
    nearest_on(p, a, b).distance(p)
}
