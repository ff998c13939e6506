// One polygon tried, whatever was tried before it.
ghost use Rattle.std.specs.Prelude.{◌≡◌, not, ◌&&◌, ◌<◌};
ghost use Rattle.std.specs.Float.Ieee.{lt};
ghost use Rattle.num_real.specs.Select.{abs_of};
ghost use Rattle.math.specs.Vector.{zero};
ghost use Rattle.file_part.specs.Layout.{vertex_count_of, polygon_count_of};
ghost use Rattle.file_part.specs.Part.{part_of};
ghost use Rattle.solid_faces.specs.Faces.{Checked};
ghost use Rattle.solid_faces.specs.Kept.{KeptPlanes};
ghost use Rattle.wall_ray.specs.Strike.{e_12, hit_time, inverse_of, struck};
ghost use Rattle.wall_ray.specs.Work.{comes, tried};

use crate::slab::is_run_reached;
use crate::strike::{Hit, Ray, is_inside, is_parallel, plane_at};
use file_part::read::{entry_at, first_vertex, run_length};
use math::Vec3;

// Whether a strike of p at t comes before what is kept: sooner, or as soon and of a lower number.
fn comes_first(best: Option<Hit>, p: usize, t: f64) -> bool
    ensures { result ≡ comes best p t }
{
    match best {
        Some(hit) => (t < hit.t) | ((t == hit.t) & (p < hit.polygon)),
        None => true,
    }
}

// The three tests that need no corner.
fn is_next(denom: f64, t: f64, best: Option<Hit>, p: usize) -> bool
    ensures { result ≡ (not (lt (abs_of denom) e_12) && (not (lt t zero) && comes best p t)) }
{
    !is_parallel(denom) & (!(t < 0.0) & comes_first(best, p, t))
}

// What is kept after polygon p is tried. Its own box is made only where all other tests pass, about once a ray, so that none is stored.
pub fn try_one(
    file: &[u8],
    planes: &[f64],
    vertices: usize,
    ray: Ray,
    inv: Vec3,
    best: Option<Hit>,
    p: usize,
) -> Option<Hit>
    requires checked_1 { Checked file.now }
    requires checked_2 { KeptPlanes (part_of file.now) (polygon_count_of file.now) planes.now }
    requires vertices_value_1 { vertices ≡ vertex_count_of file.now }
    requires vertices_value_2 { inv ≡ inverse_of ray }
    requires vertices_value_3 { p < polygon_count_of file.now }
    ensures { result ≡ tried (struck (part_of file.now) ray) (hit_time (part_of file.now) ray) best p }
{
    let plane = plane_at(planes, p);
    let denom = plane.normal.dot(ray.dir);
    let t = ray.time(plane, denom);
    if !is_next(denom, t, best, p) {
        return best;
    }
    let q = ray.point(t);
    let entry = entry_at(vertices, p);
    let first = first_vertex(file, entry);
    let n = run_length(file, entry);
    if !is_inside(file, first, n, plane.normal, q) {
        return best;
    }
    if !is_run_reached(file, first, n, ray.origin, inv, t) {
        return best;
    }
    Some(Hit { polygon: p, t })
}
