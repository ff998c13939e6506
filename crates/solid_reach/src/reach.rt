// The box of some segments, and how far a point is from it at least.
ghost use Rattle.std.specs.Prelude.{◌≡◌, ◌+◌, ◌≤◌, length};
ghost use Rattle.num_float.specs.Order.{lesser};
ghost use Rattle.num_float.specs.Work.{greater};
ghost use Rattle.solid_reach.specs.Work.{nowhere, with_point, with_segment, gap_of, gap_square, reach_at, put_reach};

use math::Vec3;
use solid_distance::kept::Segment;

// Its lowest and its highest coordinates.
#[derive(Clone, Copy)]
pub struct Reach {
    pub lo: Vec3,
    pub hi: Vec3,
}

// x where it is less than a.
// Not std's min: it tests for a NaN, which no coordinate is, and is asked for each corner.
fn lower(a: f64, x: f64) -> f64
    ensures { result ≡ lesser a x }
{
    if x < a {
        return x;
    }
    a
}

// x where it is greater than a.
fn higher(a: f64, x: f64) -> f64
    ensures { result ≡ greater a x }
{
    if a < x {
        return x;
    }
    a
}

// How far p is outside of the bounds l and h on one axis; 0 inside of them.
fn gap(l: f64, h: f64, p: f64) -> f64
    ensures { result ≡ gap_of l h p }
{
    let below = l - p;
    if 0.0 < below {
        return below;
    }
    let above = h - p;
    if above < 0.0 {
        return above;
    }
    0.0
}

impl Reach {
    // The box of no segment.
    #[tactic(auto, unfolding(crate::specs::Work::nowhere))]
    pub fn none() -> Reach
        ensures { result ≡ nowhere }
    {
        Reach {
            lo: Vec3 {
                x: f64::INFINITY,
                y: f64::INFINITY,
                z: f64::INFINITY,
            },
            hi: Vec3 {
                x: f64::NEG_INFINITY,
                y: f64::NEG_INFINITY,
                z: f64::NEG_INFINITY,
            },
        }
    }

    // With a point.
    #[tactic(auto, unfolding(crate::specs::Work::with_point))]
    fn with_point(self, v: Vec3) -> Reach
        ensures { result ≡ with_point self v }
    {
        Reach {
            lo: Vec3 {
                x: lower(self.lo.x, v.x),
                y: lower(self.lo.y, v.y),
                z: lower(self.lo.z, v.z),
            },
            hi: Vec3 {
                x: higher(self.hi.x, v.x),
                y: higher(self.hi.y, v.y),
                z: higher(self.hi.z, v.z),
            },
        }
    }

    // With a segment: both its ends, rounded as a point along it is.
    #[tactic(auto, unfolding(crate::specs::Work::with_segment, crate::specs::Work::point_on))]
    pub fn with_segment(self, s: Segment) -> Reach
        ensures { result ≡ with_segment self s }
    {
        let start = s.start;
        let way = s.way;
        let near = self.with_point(start.add(way.mul(0.0)));
        near.with_point(start.add(way.mul(1.0)))
    }

    // A square that the squared distance of p from no segment inside is less than.
    #[tactic(auto, unfolding(crate::specs::Work::gap_square))]
    pub fn gap_square(self, p: Vec3) -> f64
        ensures { result ≡ gap_square p self }
    {
        let v = Vec3 {
            x: gap(self.lo.x, self.hi.x, p.x),
            y: gap(self.lo.y, self.hi.y, p.y),
            z: gap(self.lo.z, self.hi.z, p.z),
        };
        v.length_sq()
    }
}

// Keeps r in the numbers from `at` on.
#[tactic(auto, unfolding(crate::specs::Work::put_reach))]
pub fn put_reach(out: &mut [f64], at: usize, r: Reach)
    requires { at + 6 ≤ length out.old }
    ensures { out.new ≡ put_reach out.old at r }
{
    out[at] = r.lo.x;
    out[at + 1] = r.lo.y;
    out[at + 2] = r.lo.z;
    out[at + 3] = r.hi.x;
    out[at + 4] = r.hi.y;
    out[at + 5] = r.hi.z;
}

// The one that is kept there.
#[tactic(auto, unfolding(crate::specs::Work::reach_at))]
pub fn reach_at(kept: &[f64], at: usize) -> Reach
    requires { at + 6 ≤ length kept.now }
    ensures { result ≡ reach_at kept.now at }
{
    Reach {
        lo: Vec3 {
            x: kept[at],
            y: kept[at + 1],
            z: kept[at + 2],
        },
        hi: Vec3 {
            x: kept[at + 3],
            y: kept[at + 4],
            z: kept[at + 5],
        },
    }
}
