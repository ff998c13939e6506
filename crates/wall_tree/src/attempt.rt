// The polygons of a leaf tried.
ghost use Rattle.std.specs.Prelude.{◌≡◌, ◌≤◌};
ghost use Rattle.file_part.specs.Layout.{vertex_count_of, polygon_count_of};
ghost use Rattle.file_part.specs.Part.{part_of};
ghost use Rattle.solid_faces.specs.Faces.{Checked};
ghost use Rattle.solid_faces.specs.Kept.{KeptPlanes};
ghost use Rattle.solid_boxes.specs.Tree.{Order};
ghost use Rattle.wall_ray.specs.Strike.{inverse_of};
ghost use Rattle.wall_tree.specs.Work.{limit_of, Tried};

use list_cells::cell;
use math::Vec3;
use wall_ray::attempt::try_one;
use wall_ray::strike::{Hit, Ray};

// How far along the ray something can still come first.
pub fn limit(best: Option<Hit>) -> f64
    ensures { result ≡ limit_of best }
{
    match best {
        Some(hit) => hit.t,
        None => 1.0 / 0.0,
    }
}

// What is kept after the polygons at the places from a on to before e are tried.
pub fn try_leaf(
    file: &[u8],
    planes: &[f64],
    words: &[u32],
    vertices: usize,
    ray: Ray,
    inv: Vec3,
    best: Option<Hit>,
    a: usize,
    e: usize,
) -> Option<Hit>
    requires checked_1 { Checked file.now }
    requires checked_2 { KeptPlanes (part_of file.now) (polygon_count_of file.now) planes.now }
    requires order_1 { Order words.now (polygon_count_of file.now) }
    requires order_2 { a ≤ e }
    requires order_3 { e ≤ polygon_count_of file.now }
    requires vertices_value_1 { vertices ≡ vertex_count_of file.now }
    requires vertices_value_2 { inv ≡ inverse_of ray }
    ensures { Tried (part_of file.now) ray words.now best a e result }
{
    let mut kept = best;
    for x in a..e {
        let p = cell(words, x);
        kept = try_one(file, planes, vertices, ray, inv, kept, p);
    }
    kept
}
