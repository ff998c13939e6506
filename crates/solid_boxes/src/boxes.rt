// The boxes and the skips of the nodes, from the last node back.
ghost use Rattle.std.specs.Prelude.{◌≡◌, ◌+◌, ◌*◌, ◌≤◌, ◌<◌, length};
ghost use Rattle.file_part.specs.Layout.{vertex_count_of, polygon_count_of};
ghost use Rattle.file_part.specs.Part.{part_of};
ghost use Rattle.solid_faces.specs.Faces.{Checked};
ghost use Rattle.solid_boxes.specs.Bounds.{padded, own_box_of};
ghost use Rattle.solid_boxes.specs.Tree.{at, box_at, Order, PartTree};
ghost use Rattle.solid_boxes.specs.Work.{put_box, Covers, Node, Filled, Started};

use crate::bounds::Bounds;
use crate::order::put_cell;
use crate::own::own_box;
use list_cells::cell;
use math::Vec3;

fn put_box(boxes: &mut [f64], i: usize, b: Bounds)
    requires { 6 * i + 6 ≤ length boxes.old }
    ensures { boxes.new ≡ put_box boxes.old i b }
{
    let at = 6 * i;
    boxes[at] = b.lo.x;
    boxes[at + 1] = b.lo.y;
    boxes[at + 2] = b.lo.z;
    boxes[at + 3] = b.hi.x;
    boxes[at + 4] = b.hi.y;
    boxes[at + 5] = b.hi.z;
}

fn box_at(boxes: &[f64], i: usize) -> Bounds
    requires { 6 * i + 6 ≤ length boxes.now }
    ensures { result ≡ box_at boxes.now i }
{
    let at = 6 * i;
    let lo = Vec3 {
        x: boxes[at],
        y: boxes[at + 1],
        z: boxes[at + 2],
    };
    let hi = Vec3 {
        x: boxes[at + 3],
        y: boxes[at + 4],
        z: boxes[at + 5],
    };
    Bounds { lo, hi }
}

// The box of the polygons at the places from a on to before e.
fn leaf_box(file: &[u8], vertices: usize, words: &[u32], a: usize, e: usize) -> Bounds
    requires checked_1 { Checked file.now }
    requires checked_2 { vertices ≡ vertex_count_of file.now }
    requires checked_3 { Order words.now (polygon_count_of file.now) }
    requires a_lt_e_1 { a < e }
    requires a_lt_e_2 { e ≤ polygon_count_of file.now }
    ensures { Covers (λ p. padded (own_box_of (part_of file.now) p)) (at words.now) a e result }
{
    let mut b = own_box(file, vertices, cell(words, a));
    for x in a + 1..e {
        b = b.join(own_box(file, vertices, cell(words, x)));
    }
    b
}

// A node's box, and the node after all that is below it.
#[derive(Clone, Copy)]
struct Made {
    bounds: Bounds,
    skip: usize,
}

// Node i, from those after it: a leaf has polygons of its own; of any other the first child is the next node, and the second is where the first
// one's skip leads.
fn node_of(
    file: &[u8],
    vertices: usize,
    boxes: &[f64],
    words: &[u32],
    n: usize,
    m: usize,
    i: usize,
) -> Made
    requires checked_1 { Checked file.now }
    requires checked_2 { vertices ≡ vertex_count_of file.now }
    requires checked_3 { n ≡ polygon_count_of file.now }
    requires started_1 { Started words.now n m }
    requires started_2 { 6 * m ≤ length boxes.now }
    requires started_3 { 3 * n + 1 ≤ length words.now }
    requires started_4 { i < m }
    requires filled { Filled (λ p. padded (own_box_of (part_of file.now) p)) boxes.now words.now n m (i + 1) }
    ensures { Node (λ p. padded (own_box_of (part_of file.now) p)) boxes.now words.now n m i result.bounds result.skip }
{
    let s = i + 1;
    let a = cell(words, n + i);
    let e = cell(words, n + s);
    if a < e {
        let b = leaf_box(file, vertices, words, a, e);
        return Made { bounds: b, skip: s };
    }
    if s >= m {
        let b = Bounds {
            lo: Vec3::ZERO,
            hi: Vec3::ZERO,
        };
        return Made { bounds: b, skip: s };
    }
    let skips = 2 * n + 1;
    let c = box_at(boxes, s);
    let t = cell(words, skips + s);
    if t >= m {
        return Made { bounds: c, skip: t };
    }
    let d = box_at(boxes, t);
    let u = cell(words, skips + t);
    let b = c.join(d);
    Made { bounds: b, skip: u }
}

// All boxes and skips of m nodes.
pub fn put_boxes(
    file: &[u8],
    vertices: usize,
    boxes: &mut [f64],
    words: &mut [u32],
    n: usize,
    m: usize,
)
    requires checked_1 { Checked file.now }
    requires checked_2 { vertices ≡ vertex_count_of file.now }
    requires checked_3 { n ≡ polygon_count_of file.now }
    requires started_1 { Started words.old n m }
    requires started_2 { 6 * m ≤ length boxes.old }
    requires started_3 { 3 * n + 1 ≤ length words.old }
    ensures part_tree { PartTree (part_of file.now) boxes.new words.new }
    ensures boxes_len_unchanged_1 { length boxes.new ≡ length boxes.old }
    ensures boxes_len_unchanged_2 { length words.new ≡ length words.old }
{
    let skips = 2 * n + 1;
    for i in (0..m).rev() {
        let made = node_of(file, vertices, &*boxes, &*words, n, m, i);
        put_box(boxes, i, made.bounds);
        put_cell(words, skips + i, made.skip);
    }
}
