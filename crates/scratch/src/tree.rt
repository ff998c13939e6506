// The tree of boxes of a part in the lent scratch.
ghost use Rattle.std.specs.Prelude.{◌≤◌, length};
ghost use Rattle.file_part.specs.Part.{part_of};
ghost use Rattle.scratch.specs.Standing.{Placed};
ghost use Rattle.scratch.specs.Work.{TreePut};

use crate::regions::{Regions, SCANNED};

// The tree of a part, where it has more polygons than are tried one after the other.
pub fn put_tree(file: &[u8], words: &mut [u32], reals: &mut [f64], at: Regions)
    requires fact_1 { Placed file.now at }
    requires fact_2 { at.words ≤ length words.old }
    requires fact_3 { at.reals ≤ length reals.old }
    ensures { TreePut (part_of file.now) at words.old words.new reals.old reals.new }
{
    if at.polygons <= SCANNED {
        return;
    }
    let boxes = at.boxes;
    let falling = at.falling;
    let tree = at.tree;
    let sides = at.sides;
    solid_boxes::tree::put_tree(file, &mut reals[boxes..falling], &mut words[tree..sides]);
}
