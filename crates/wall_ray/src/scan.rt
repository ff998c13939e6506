// The nearest polygon that a ray strikes, and whether it strikes any, by trying one after the other.
ghost use Rattle.std.specs.Prelude.{◌≡◌};
ghost use Rattle.file_part.specs.Layout.{polygon_count_of};
ghost use Rattle.file_part.specs.Part.{part_of};
ghost use Rattle.solid_faces.specs.Faces.{Checked};
ghost use Rattle.solid_faces.specs.Kept.{KeptPlanes};
ghost use Rattle.wall_ray.specs.Nearest.{hit_of, is_nothing_of, Answer};

use crate::attempt::try_one;
use crate::slab::{inverse, is_run_reached};
use crate::strike::{Hit, Ray, is_reached, is_within, plane_at};
use file_part::read::{entry_at, first_vertex, polygon_count, run_length, vertex_count};

// The hit of smallest t, of the lowest number on equal t, by trying every polygon.
pub fn scan(file: &[u8], planes: &[f64], ray: Ray) -> Option<Hit>
    requires fact_1 { Checked file.now }
    requires fact_2 { KeptPlanes (part_of file.now) (polygon_count_of file.now) planes.now }
    ensures { Answer (part_of file.now) ray result }
{
    let vertices = vertex_count(file);
    let inv = inverse(ray);
    let mut best = None;
    'next: for p in 0..polygon_count(file) {
        let plane = plane_at(planes, p);
        let denom = plane.normal.dot(ray.dir);
        let t = ray.time(plane, denom);
        if !is_reached(denom, t, best) {
            continue 'next;
        }
        let q = ray.point(t);
        let entry = entry_at(vertices, p);
        let first = first_vertex(file, entry);
        let n = run_length(file, entry);
        for k in 0..n {
            if !is_within(file, first, n, plane.normal, q, k) {
                continue 'next;
            }
        }
        // Made only where all other tests pass, about once a ray.
        if !is_run_reached(file, first, n, ray.origin, inv, t) {
            continue 'next;
        }
        best = Some(Hit { polygon: p, t });
    }
    best
}

// Whether the ray strikes nothing: the first polygon that it strikes decides.
pub fn misses(file: &[u8], planes: &[f64], ray: Ray) -> bool
    requires fact_1 { Checked file.now }
    requires fact_2 { KeptPlanes (part_of file.now) (polygon_count_of file.now) planes.now }
    ensures { result ≡ is_nothing_of (hit_of (part_of file.now) ray) }
{
    let vertices = vertex_count(file);
    let inv = inverse(ray);
    for q in 0..polygon_count(file) {
        let h = try_one(file, planes, vertices, ray, inv, None, q);
        if h.is_some() {
            return false;
        }
    }
    true
}
