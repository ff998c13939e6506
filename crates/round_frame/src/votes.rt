// Whether the material of a round lies outside its cylinder.
ghost use Rattle.std.specs.Prelude.{◌≡◌, true, ◌+◌, ◌*◌, ◌≤◌, ◌<◌, length};
ghost use Rattle.file_part.specs.Layout.{vertex_count_of};
ghost use Rattle.file_part.specs.Part.{part_of};
ghost use Rattle.file_ok.specs.Work.{Readable};
ghost use Rattle.solid_faces.specs.Faces.{is_new, face_number};
ghost use Rattle.solid_faces.specs.Kept.{Chain, plane_at_of, KeptPlanes, KeptAreas};
ghost use Rattle.round_frame.specs.Polygons.{polygon_vote, votes_to};

use crate::frame::Frame;
use file_part::read::{entry_at, first_vertex, polygon_count, run_length, vertex_count};
use math::Vec3;
use solid_polygon::polygon::centroid;

// The normal of polygon q.
fn normal_at(planes: &[f64], q: usize) -> Vec3
    requires { 4 * q + 4 ≤ length planes.now }
    ensures { result ≡ (plane_at_of planes.now q).normal }
{
    let at = 4 * q;
    Vec3 {
        x: planes[at],
        y: planes[at + 1],
        z: planes[at + 2],
    }
}

// The vote of polygon q, of a file with v vertices.
fn polygon_vote(file: &[u8], planes: &[f64], areas: &[f64], v: usize, q: usize, frame: Frame) -> f64
    requires readable_1 { Readable file.now }
    requires readable_2 { v ≡ vertex_count_of file.now }
    requires readable_3 { q < (part_of file.now).polygons }
    requires kept_planes_1 { KeptPlanes (part_of file.now) (part_of file.now).polygons planes.now }
    requires kept_planes_2 { KeptAreas (part_of file.now) (part_of file.now).polygons areas.now }
    ensures { result ≡ polygon_vote (part_of file.now) frame q }
{
    let at = entry_at(v, q);
    let centroid = centroid(file, first_vertex(file, at), run_length(file, at));
    frame.vote(normal_at(planes, q), centroid, areas[q])
}

// The votes of all polygons of the face that begins with polygon `first`.
pub fn face_votes(
    file: &[u8],
    chain: &[u32],
    planes: &[f64],
    areas: &[f64],
    first: usize,
    frame: Frame,
) -> f64
    requires readable_1 { Readable file.now }
    requires readable_2 { Chain (part_of file.now) chain.now }
    requires first_bound_1 { first < (part_of file.now).polygons }
    requires first_bound_2 { is_new (part_of file.now) first ≡ true }
    requires kept_planes_1 { KeptPlanes (part_of file.now) (part_of file.now).polygons planes.now }
    requires kept_planes_2 { KeptAreas (part_of file.now) (part_of file.now).polygons areas.now }
    ensures { result ≡ votes_to (part_of file.now) (face_number (part_of file.now) first) frame (part_of file.now).polygons }
{
    let p = polygon_count(file);
    let v = vertex_count(file);
    let mut votes = 0.0;
    let mut q = first;
    // A while: the next polygon is the one that the chain names.
    while q < p {
        votes += polygon_vote(file, planes, areas, v, q, frame);
        q = chain[q] as usize;
    }
    votes
}
