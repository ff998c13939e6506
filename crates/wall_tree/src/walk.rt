// The walk over a tree, node by node; a box that is not opened is left by its skip. At the end the start is the number of polygons.
ghost use Rattle.std.specs.Prelude.{◌≡◌};
ghost use Rattle.file_part.specs.Layout.{polygon_count_of};
ghost use Rattle.file_part.specs.Part.{part_of};
ghost use Rattle.solid_faces.specs.Faces.{Checked};
ghost use Rattle.solid_faces.specs.Kept.{KeptPlanes};
ghost use Rattle.solid_boxes.specs.Tree.{PartTree};
ghost use Rattle.wall_ray.specs.Nearest.{hit_of, is_nothing_of, Answer};

use crate::aim::{aim_of, is_open};
use crate::attempt::{limit, try_leaf};
use file_part::read::{polygon_count, vertex_count};
use list_cells::cell;
use wall_ray::strike::{Hit, Ray};

// What the ray strikes first.
pub fn nearest(file: &[u8], planes: &[f64], boxes: &[f64], words: &[u32], ray: Ray) -> Option<Hit>
    requires checked_1 { Checked file.now }
    requires checked_2 { KeptPlanes (part_of file.now) (polygon_count_of file.now) planes.now }
    requires part_tree { PartTree (part_of file.now) boxes.now words.now }
    ensures { Answer (part_of file.now) ray result }
{
    let vertices = vertex_count(file);
    let polygons = polygon_count(file);
    let skips = 2 * polygons + 1;
    let aim = aim_of(ray);
    let mut best = None;
    let mut j: usize = 0;
    let mut a: usize = 0;
    // A while: the next start is that of the next node, or of the node that a skip leads to.
    while a < polygons {
        if !is_open(boxes, j, aim, limit(best)) {
            j = cell(words, skips + j);
            a = cell(words, polygons + j);
            continue;
        }
        j += 1;
        let e = cell(words, polygons + j);
        best = try_leaf(file, planes, words, vertices, ray, aim.inv, best, a, e);
        a = e;
    }
    best
}

// Whether the ray strikes nothing: at the first leaf with a strike it stops.
pub fn is_clear(file: &[u8], planes: &[f64], boxes: &[f64], words: &[u32], ray: Ray) -> bool
    requires checked_1 { Checked file.now }
    requires checked_2 { KeptPlanes (part_of file.now) (polygon_count_of file.now) planes.now }
    requires part_tree { PartTree (part_of file.now) boxes.now words.now }
    ensures { result ≡ is_nothing_of (hit_of (part_of file.now) ray) }
{
    let vertices = vertex_count(file);
    let polygons = polygon_count(file);
    let skips = 2 * polygons + 1;
    let aim = aim_of(ray);
    let endless = limit(None);
    let mut j: usize = 0;
    let mut a: usize = 0;
    // A while: the next start is that of the next node, or of the node that a skip leads to.
    while a < polygons {
        if !is_open(boxes, j, aim, endless) {
            j = cell(words, skips + j);
            a = cell(words, polygons + j);
            continue;
        }
        j += 1;
        let e = cell(words, polygons + j);
        let h = try_leaf(file, planes, words, vertices, ray, aim.inv, None, a, e);
        if h.is_some() {
            return false;
        }
        a = e;
    }
    true
}
