// The ray of a polygon, inward from its centroid, and what it hits.
ghost use Rattle.std.specs.Prelude.{◌≡◌, ◌+◌, ◌*◌, ◌≤◌, ◌<◌, length};
ghost use Rattle.std.specs.Float.Ieee.{neg, lt};
ghost use Rattle.math.specs.Vector.{dot_of};
ghost use Rattle.file_part.specs.Layout.{vertex_count_of, polygon_count_of};
ghost use Rattle.file_part.specs.Part.{part_of};
ghost use Rattle.solid_polygon.specs.Polygon.{half};
ghost use Rattle.solid_faces.specs.Faces.{Checked};
ghost use Rattle.solid_faces.specs.Kept.{plane_at_of};
ghost use Rattle.scratch.specs.Standing.{Standing};
ghost use Rattle.wall_tree.specs.wall_ray.specs.Nearest.{hit_of};
ghost use Rattle.wall_samples.specs.Samples.{polygon_centroid, ray_of};
ghost use Rattle.wall_samples.specs.Work.{back_hit, HitBelow};

use file_part::read::{entry_at, first_vertex, run_length};
use math::Vec3;
use scratch::regions::Regions;
use solid_polygon::polygon::centroid;
use wall_tree::raycast::raycast;
use wall_tree::wall_ray::strike::{Hit, Ray, plane_at};

// The polygon that a ray starts from, the polygon that it hits, and how thick the part is between them.
#[derive(Clone, Copy)]
pub struct Reading {
    pub polygon: usize,
    pub hit: usize,
    pub thickness: f64,
}

// dfm.rs's centroid of polygon p, in a file with v vertices.
pub fn centroid_of(file: &[u8], v: usize, p: usize) -> Vec3
    requires fact_1 { Checked file.now }
    requires fact_2 { v ≡ vertex_count_of file.now }
    requires fact_3 { p < polygon_count_of file.now }
    ensures { result ≡ polygon_centroid (part_of file.now) p }
{
    let at = entry_at(v, p);
    centroid(file, first_vertex(file, at), run_length(file, at))
}

// From the centroid of polygon p, 1e-6 inward.
fn ray_of(file: &[u8], words: &[u32], reals: &[f64], at: Regions, p: usize) -> Ray
    requires fact_1 { Standing file.now at words.now reals.now }
    requires fact_2 { p < at.polygons }
    ensures { result ≡ ray_of (part_of file.now) p }
{
    let c = centroid_of(file, at.vertices, p);
    let inward = plane_at(&reals[0..at.areas], p).normal.mul(-1.0);
    Ray {
        origin: c.add(inward.mul(1e-6)),
        dir: inward,
    }
}

// Whether polygon q faces back to polygon p.
fn faces_back(planes: &[f64], p: usize, q: usize) -> bool
    requires fact_1 { 4 * p + 4 ≤ length planes.now }
    requires fact_2 { 4 * q + 4 ≤ length planes.now }
    ensures { result ≡ lt (dot_of (plane_at_of planes.now q).normal (plane_at_of planes.now p).normal) (neg half) }
{
    plane_at(planes, q).normal.dot(plane_at(planes, p).normal) < -0.5
}

// What the ray of polygon p hits, where that faces back.
pub fn reading_from(file: &[u8], words: &[u32], reals: &[f64], at: Regions, p: usize) -> Option<Hit>
    requires fact_1 { Standing file.now at words.now reals.now }
    requires fact_2 { p < at.polygons }
    ensures value { result ≡ back_hit (part_of file.now) p (hit_of (part_of file.now) (ray_of (part_of file.now) p)) }
    ensures hit_below { HitBelow at.polygons result }
{
    let hit = raycast(file, words, reals, at, ray_of(file, words, reals, at, p))?;
    if faces_back(&reals[0..at.areas], p, hit.polygon) {
        return Some(hit);
    }
    None
}
