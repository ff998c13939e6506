// How far a face reaches from a bend line, square to it.
ghost use Rattle.std.specs.Prelude.{◌≡◌, true, ◌+◌, ◌*◌, ◌≤◌, ◌<◌, length};
ghost use Rattle.math.specs.Vector.{minus};
ghost use Rattle.file_part.specs.Layout.{vertex_count_of};
ghost use Rattle.file_part.specs.Part.{part_of};
ghost use Rattle.file_ok.specs.Work.{Readable};
ghost use Rattle.solid_polygon.specs.Work.{corner_at};
ghost use Rattle.solid_faces.specs.Faces.{is_new, face_number, polygon_corner};
ghost use Rattle.solid_faces.specs.Kept.{Chain};
ghost use Rattle.rule_flanges.specs.Flanges.{away_from, run_reach, reach_to};

use file_part::read::{entry_at, first_vertex, polygon_count, run_length, vertex, vertex_count};
use math::Vec3;
use num_real::select::max;

// A bend line: a point on it, and its direction.
#[derive(Clone, Copy)]
pub struct Line {
    pub from: Vec3,
    pub along: Vec3,
}

impl Line {
    // How far a point is from the line, by the offset square to it.
    fn away(self, p: Vec3) -> f64
        ensures { result ≡ away_from self.along (minus p self.from) }
    {
        let d = p.sub(self.from);
        let along = self.along;
        d.sub(along.mul(d.dot(along))).length()
    }
}

// With the corners of a polygon more.
fn run_reach(file: &[u8], first: usize, count: usize, line: Line, x: f64) -> f64
    requires { 24 * (first + count) ≤ length file.now }
    ensures { result ≡ run_reach line.along line.from (corner_at file.now first) x count }
{
    let mut reach = x;
    for k in 0..count {
        reach = max(reach, line.away(vertex(file, first + k)));
    }
    reach
}

// With polygon q more, of a file with v vertices.
fn polygon_reach(file: &[u8], v: usize, q: usize, line: Line, x: f64) -> f64
    requires fact_1 { Readable file.now }
    requires fact_2 { v ≡ vertex_count_of file.now }
    requires fact_3 { q < (part_of file.now).polygons }
    ensures { result ≡ run_reach line.along line.from (polygon_corner (part_of file.now) q) x ((part_of file.now).polygon q).count }
{
    let at = entry_at(v, q);
    run_reach(file, first_vertex(file, at), run_length(file, at), line, x)
}

// Over all polygons of the face that begins with polygon `first`.
pub fn face_reach(file: &[u8], chain: &[u32], first: usize, line: Line) -> f64
    requires readable_1 { Readable file.now }
    requires readable_2 { Chain (part_of file.now) chain.now }
    requires first_bound_1 { first < (part_of file.now).polygons }
    requires first_bound_2 { is_new (part_of file.now) first ≡ true }
    ensures { result ≡ reach_to (part_of file.now) (face_number (part_of file.now) first) line.along line.from (part_of file.now).polygons }
{
    let p = polygon_count(file);
    let v = vertex_count(file);
    let mut reach = 0.0;
    let mut q = first;
    // A while: each polygon of a face leads to its next.
    while q < p {
        reach = polygon_reach(file, v, q, line, reach);
        q = chain[q] as usize;
    }
    reach
}
