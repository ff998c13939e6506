// The sorted edges packed as segments, place by place: who asks for a distance from the edges of a face goes over them in one run.
ghost use Rattle.std.specs.Prelude.{◌≡◌, ◌+◌, ◌<◌};
ghost use Rattle.file_part.specs.Part.{part_of};
ghost use Rattle.solid_tours.specs.Work.Kept.{item_count, OrderedTo, EdgesSorted};
ghost use Rattle.solid_tours.specs.Work.{PackedPut};

use crate::tour::item_at;
use file_part::read::vertex;
use scratch::regions::Regions;
use solid_distance::kept::{Segment, put_segment};
use solid_edges::edge::end_at;

// Packs the edge at place j, where those before it are packed.
fn pack_edge(file: &[u8], words: &[u32], reals: &mut [f64], at: Regions, j: usize)
    requires fact_1 { OrderedTo file.now at words.now reals.old j 0 }
    requires fact_2 { j < item_count (part_of file.now) }
    ensures { PackedPut file.now at words.now reals.old reals.new (j + 1) }
{
    let sides = at.sides;
    let items = at.items;
    let faces = at.faces;
    let faces_end = at.readings;
    let free = at.free;
    let s = item_at(file, words, &reals[..], at, j);
    let to = end_at(file, &words[sides..items], &words[faces..faces_end], s);
    let segment = Segment::new(vertex(file, s), vertex(file, to));
    put_segment(reals, free + 7 * j, segment);
}

// All m of them.
pub fn pack_edges(file: &[u8], words: &[u32], reals: &mut [f64], at: Regions, m: usize)
    requires fact_1 { EdgesSorted file.now at words.now reals.old }
    requires fact_2 { m ≡ item_count (part_of file.now) }
    ensures { PackedPut file.now at words.now reals.old reals.new (item_count (part_of file.now)) }
{
    for j in 0..m {
        pack_edge(file, words, reals, at, j);
    }
}
