// The tree of a part.
ghost use Rattle.std.specs.Prelude.{◌≡◌, length};
ghost use Rattle.file_part.specs.Layout.{polygon_count_of};
ghost use Rattle.file_part.specs.Part.{part_of};
ghost use Rattle.solid_faces.specs.Faces.{Checked};
ghost use Rattle.solid_boxes.specs.Tree.{tree_reals, tree_words, PartTree};

use crate::boxes::put_boxes;
use crate::order::put_numbers;
use crate::starts::{put_keys, put_one, put_starts};
use file_part::read::{polygon_count, vertex_count};

// Puts the tree of a part. What the cells held before plays no part.
pub fn put_tree(file: &[u8], boxes: &mut [f64], words: &mut [u32])
    requires fact_1 { Checked file.now }
    requires fact_2 { length boxes.old ≡ tree_reals (polygon_count_of file.now) }
    requires fact_3 { length words.old ≡ tree_words (polygon_count_of file.now) }
    ensures { PartTree (part_of file.now) boxes.new words.new }
{
    let vertices = vertex_count(file);
    let n = polygon_count(file);
    if n == 0 {
        return;
    }
    put_numbers(words, n);
    if n == 1 {
        let m = put_one(words, n);
        put_boxes(file, vertices, boxes, words, n, m);
        return;
    }
    put_keys(file, vertices, boxes, n);
    let m = put_starts(&*boxes, words, n);
    put_boxes(file, vertices, boxes, words, n, m);
}
