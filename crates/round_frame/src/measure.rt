// Axis, length and centre of a round, as they are kept.
ghost use Rattle.std.specs.Prelude.{◌≡◌, ◌+◌, ◌*◌, ◌≤◌, length};
ghost use Rattle.round_frame.specs.Frame.{measure_of};
ghost use Rattle.round_frame.specs.Measure.{measure_at};
ghost use Rattle.round_frame.specs.Work.{put_measure_of};

use crate::extent::Extent;
use crate::frame::Frame;
use math::Vec3;

#[derive(Clone, Copy)]
pub struct Measure {
    pub axis: Vec3,
    pub length: f64,
    pub centre: Vec3,
}

impl Measure {
    // Of a face that reaches over an extent.
    pub fn new(frame: Frame, e: Extent) -> Measure
        ensures { result ≡ measure_of frame e }
    {
        let axis = frame.axis;
        Measure {
            axis,
            length: e.hi - e.lo,
            centre: frame.origin.add(axis.mul(0.5 * (e.lo + e.hi))),
        }
    }
}

// Keeps m as that of face f.
pub fn put_measure(out: &mut [f64], f: usize, m: Measure)
    requires { 7 * f + 7 ≤ length out.old }
    ensures { out.new ≡ put_measure_of out.old f m }
{
    let at = 7 * f;
    out[at] = m.axis.x;
    out[at + 1] = m.axis.y;
    out[at + 2] = m.axis.z;
    out[at + 3] = m.length;
    out[at + 4] = m.centre.x;
    out[at + 5] = m.centre.y;
    out[at + 6] = m.centre.z;
}

// That of face f.
pub fn measure_at(kept: &[f64], f: usize) -> Measure
    requires { 7 * f + 7 ≤ length kept.now }
    ensures { result ≡ measure_at kept.now f }
{
    let at = 7 * f;
    Measure {
        axis: Vec3 {
            x: kept[at],
            y: kept[at + 1],
            z: kept[at + 2],
        },
        length: kept[at + 3],
        centre: Vec3 {
            x: kept[at + 4],
            y: kept[at + 5],
            z: kept[at + 6],
        },
    }
}
