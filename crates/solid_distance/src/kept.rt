// A segment as it is kept for many points: what a distance from it asks for, in seven numbers.
ghost use Rattle.std.specs.Prelude.{◌≡◌, ◌+◌, ◌≤◌, length};
ghost use Rattle.solid_distance.specs.Kept.{square_to_of};
ghost use Rattle.solid_distance.specs.Work.{segment_of, segment_at_of, put_segment};

use crate::segment::fraction_along;
use math::Vec3;

// Where it starts, the way to its end, and the square of its length.
#[derive(Clone, Copy)]
pub struct Segment {
    pub start: Vec3,
    pub way: Vec3,
    pub square: f64,
}

impl Segment {
    // The segment from a to b.
    #[tactic(auto, unfolding(crate::specs::Work::segment_of))]
    pub fn new(a: Vec3, b: Vec3) -> Segment
        ensures { result ≡ segment_of a b }
    {
        let way = b.sub(a);
        Segment {
            start: a,
            way,
            square: way.length_sq(),
        }
    }

    // The squared distance of p from it.
    #[tactic(auto, unfolding(crate::specs::Kept::square_to_of))]
    pub fn square_to(self, p: Vec3) -> f64
        ensures { result ≡ square_to_of p self }
    {
        let start = self.start;
        let way = self.way;
        let nearest = start.add(way.mul(fraction_along(p, start, way, self.square)));
        nearest.sub(p).length_sq()
    }
}

// Keeps s in the numbers from `at` on.
#[tactic(auto, unfolding(crate::specs::Work::put_segment))]
pub fn put_segment(out: &mut [f64], at: usize, s: Segment)
    requires { at + 7 ≤ length out.old }
    ensures { out.new ≡ put_segment out.old at s }
{
    out[at] = s.start.x;
    out[at + 1] = s.start.y;
    out[at + 2] = s.start.z;
    out[at + 3] = s.way.x;
    out[at + 4] = s.way.y;
    out[at + 5] = s.way.z;
    out[at + 6] = s.square;
}

// The one that is kept there.
#[tactic(auto, unfolding(crate::specs::Work::segment_at_of))]
pub fn segment_at(kept: &[f64], at: usize) -> Segment
    requires { at + 7 ≤ length kept.now }
    ensures { result ≡ segment_at_of kept.now at }
{
    Segment {
        start: Vec3 {
            x: kept[at],
            y: kept[at + 1],
            z: kept[at + 2],
        },
        way: Vec3 {
            x: kept[at + 3],
            y: kept[at + 4],
            z: kept[at + 5],
        },
        square: kept[at + 6],
    }
}
