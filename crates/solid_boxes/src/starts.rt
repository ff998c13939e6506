// Where the polygons of each node start, in the order that the splits give.
ghost use Rattle.std.specs.Prelude.{◌≡◌, ◌+◌, ◌*◌, ◌≤◌, ◌<◌, length};
ghost use Rattle.file_part.specs.Layout.{vertex_count_of, polygon_count_of};
ghost use Rattle.solid_faces.specs.Faces.{Checked};
ghost use Rattle.solid_boxes.specs.Tree.{Order};
ghost use Rattle.solid_boxes.specs.Work.{Keyed, Started};

use crate::order::{put_cell, split};
use crate::own::own_box;
use list_cells::cell;

fn put_key(keys: &mut [f64], i: usize, x: f64)
    requires { i < length keys.old }
    ensures { length keys.new ≡ length keys.old }
{
    keys[i] = x;
}

// Twice the middles of the polygons' boxes, three numbers each.
pub fn put_keys(file: &[u8], vertices: usize, keys: &mut [f64], n: usize)
    requires fact_1 { Checked file.now }
    requires fact_2 { vertices ≡ vertex_count_of file.now }
    requires fact_3 { n ≡ polygon_count_of file.now }
    requires fact_4 { 3 * n ≤ length keys.old }
    ensures { length keys.new ≡ length keys.old }
{
    for p in 0..n {
        let b = own_box(file, vertices, p);
        put_key(keys, 3 * p, b.lo.x + b.hi.x);
        put_key(keys, 3 * p + 1, b.lo.y + b.hi.y);
        put_key(keys, 3 * p + 2, b.lo.z + b.hi.z);
    }
}

// The starts of a tree over n polygons, places split while there are more than 4; how many nodes. Where the skips will stand is a stack of the
// ends of places that wait.
pub fn put_starts(keys: &[f64], words: &mut [u32], n: usize) -> usize
    requires fact_1 { Keyed keys.now words.old n }
    requires fact_2 { 2 ≤ n }
    requires fact_3 { 3 * n + 1 ≤ length words.old }
    ensures fact_1 { Started words.new n result }
    ensures fact_2 { length words.new ≡ length words.old }
{
    let ends = 2 * n + 1;
    put_cell(words, n, 0);
    put_cell(words, ends, n);
    let mut d: usize = 1;
    let mut m: usize = 0;
    let mut x: usize = 0;
    // A while: the stack grows and shrinks, until nothing waits.
    while d > 0 {
        let b = cell(&*words, ends + (d - 1));
        m += 1;
        if b <= x + 4 {
            put_cell(words, n + m, b);
            x = b;
            d -= 1;
            continue;
        }
        let k = split(keys, words, n, x, b);
        put_cell(words, ends + d, k);
        put_cell(words, n + m, x);
        d += 1;
    }
    m
}

// One polygon, one node.
pub fn put_one(words: &mut [u32], n: usize) -> usize
    requires fact_1 { Order words.old n }
    requires fact_2 { n ≡ 1 }
    requires fact_3 { 3 * n + 1 ≤ length words.old }
    ensures fact_1 { Started words.new n result }
    ensures fact_2 { length words.new ≡ length words.old }
{
    put_cell(words, 1, 0);
    put_cell(words, 2, 1);
    1
}
