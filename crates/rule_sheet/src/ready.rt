// What the rules of sheet metal ask for, put into the scratch: the readings, the rounds and the edges.
ghost use Rattle.std.specs.Prelude.{◌≡◌, true};
ghost use Rattle.file_part.specs.Part.{part_of};
ghost use Rattle.solid_faces.specs.Faces.{faces_of};
ghost use Rattle.scratch.specs.Standing.{Standing};
ghost use Rattle.solid_ranks.specs.Kept.{Ranked};
ghost use Rattle.rule_sheet.specs.Work.{ReadyPut};

use round_all::round::put_rounds;
use scratch::regions::Regions;
use solid_tours::order::order_edges;
use wall_samples::store::put_samples;

// How many readings there are, and how many items of edges.
#[derive(Clone, Copy)]
pub struct Ready {
    pub readings: usize,
    pub items: usize,
}

// For a part of n faces whose body and whose ranks stand in the scratch. The edges come after the rounds, whose work they take.
pub fn make_ready(file: &[u8], words: &mut [u32], reals: &mut [f64], at: Regions, n: usize) -> Ready
    requires fact_1 { Standing file.now at words.old reals.old }
    requires fact_2 { Ranked (part_of file.now) at words.old }
    requires fact_3 { n ≡ faces_of (part_of file.now) }
    requires fact_4 { at.segments ≡ true }
    ensures { ReadyPut file.now at words.old words.new reals.old reals.new result }
{
    let m = put_samples(file, words, reals, at, n);
    put_rounds(file, words, reals, at, n);
    Ready {
        readings: m,
        items: order_edges(file, words, reals, at, n),
    }
}
