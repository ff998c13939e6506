// The tree of boxes alone.
ghost use Rattle.probe.specs.Tree.{TreePut};

use file_part::read::polygon_count;
use scratch::verdict::body_refusal;

// Puts the tree of boxes of a part into the first cells of the lent scratch, and answers 0; or answers the refusal from 1 to 10 and changes nothing.
#[unsafe(no_mangle)]
pub extern "C" fn gablemadder_put_tree(file: &[u8], words: &mut [u32], reals: &mut [f64]) -> u32
    ensures { TreePut file.now words.old words.new reals.old reals.new result }
{
    if let Err(refusal) = body_refusal(file, words.len(), reals.len()) {
        return refusal.number();
    }
    let start: usize = 0;
    let n = polygon_count(file);
    let boxes = 8 * n;
    let order = 4 * n;
    solid_boxes::tree::put_tree(file, &mut reals[start..boxes], &mut words[start..order]);
    0
}
