// How far a face reaches along its axis.
ghost use Rattle.std.specs.Prelude.{◌≡◌, true, ◌<◌};
ghost use Rattle.file_part.specs.Layout.{vertex_count_of};
ghost use Rattle.file_part.specs.Part.{part_of};
ghost use Rattle.file_ok.specs.Work.{Readable};
ghost use Rattle.solid_polygon.specs.Work.{corner_at, Corners};
ghost use Rattle.solid_faces.specs.Faces.{is_new, face_number, polygon_corner};
ghost use Rattle.solid_faces.specs.Kept.{Chain};
ghost use Rattle.round_frame.specs.Frame.{reach, run_extent};
ghost use Rattle.round_frame.specs.Polygons.{extent_to};

use crate::frame::Frame;
use file_part::corner::corner;
use file_part::read::{entry_at, first_vertex, polygon_count, run_length, vertex_count};
use num_real::select::{max, min};

// The lowest and the highest height.
#[derive(Clone, Copy)]
pub struct Extent {
    pub lo: f64,
    pub hi: f64,
}

impl Extent {
    // With one height more.
    pub fn reach(self, h: f64) -> Extent
        ensures { result ≡ reach self h }
    {
        Extent {
            lo: min(self.lo, h),
            hi: max(self.hi, h),
        }
    }
}

// With the corners of a polygon more.
fn run_extent(file: &[u8], first: usize, count: usize, frame: Frame, extent: Extent) -> Extent
    requires { Corners file.now first count }
    ensures { result ≡ run_extent frame (corner_at file.now first) extent count }
{
    let mut e = extent;
    for k in 0..count {
        e = e.reach(frame.height(corner(file, first + k)));
    }
    e
}

// With polygon q more, of a file with v vertices.
fn polygon_extent(file: &[u8], v: usize, q: usize, frame: Frame, e: Extent) -> Extent
    requires fact_1 { Readable file.now }
    requires fact_2 { v ≡ vertex_count_of file.now }
    requires fact_3 { q < (part_of file.now).polygons }
    ensures { result ≡ run_extent frame (polygon_corner (part_of file.now) q) e ((part_of file.now).polygon q).count }
{
    let at = entry_at(v, q);
    run_extent(file, first_vertex(file, at), run_length(file, at), frame, e)
}

// Over all polygons of the face that begins with polygon `first`.
pub fn face_extent(file: &[u8], chain: &[u32], first: usize, frame: Frame) -> Extent
    requires readable_1 { Readable file.now }
    requires readable_2 { Chain (part_of file.now) chain.now }
    requires first_bound_1 { first < (part_of file.now).polygons }
    requires first_bound_2 { is_new (part_of file.now) first ≡ true }
    ensures { result ≡ extent_to (part_of file.now) (face_number (part_of file.now) first) frame (part_of file.now).polygons }
{
    let p = polygon_count(file);
    let v = vertex_count(file);
    let mut e = Extent {
        lo: 1.0 / 0.0,
        hi: -1.0 / 0.0,
    };
    let mut q = first;
    // A while: the next polygon is the one that the chain names.
    while q < p {
        e = polygon_extent(file, v, q, frame, e);
        q = chain[q] as usize;
    }
    e
}
