// Items between two faces each, by pairs of faces: the pair of two faces, the lower id first, and the key by which items are sorted.
#![tactic(auto)]

ghost use Rattle.std.specs.Prelude.{◌≡◌, ◌+◌, ◌*◌, ◌≤◌, ◌<◌, length};
ghost use Rattle.list_groups.specs.Work.{WholeIs};
ghost use Rattle.file_part.specs.Part.{part_of};
ghost use Rattle.solid_faces.specs.Faces.{faces_of};
ghost use Rattle.scratch.specs.Standing.{Placed};
ghost use Rattle.solid_ranks.specs.Kept.{Ranked};
ghost use Rattle.solid_pairs.specs.Work.{PairIs};

use list_cells::cell;
use scratch::regions::Regions;

// Two faces, the lower id first. Keys rise as the pairs do, by the ids of the first and then of the second.
#[derive(Clone, Copy)]
pub struct FacePair {
    pub first: usize,
    pub second: usize,
    pub key: f64,
}

// The key of a pair of ranks below n.
fn pair_key(a: usize, b: usize, n: usize) -> f64
    requires fact_1 { a < n }
    requires fact_2 { b < n }
    requires fact_3 { n ≤ 1024 }
    ensures { WholeIs (a * n + b) result }
{
    (a * n + b) as f64
}

// The pair of faces f and g of n, by the ranks that stand in the scratch.
pub fn pair_of(file: &[u8], words: &[u32], at: Regions, n: usize, f: usize, g: usize) -> FacePair
    requires placed_1 { Placed file.now at }
    requires placed_2 { at.words ≤ length words.now }
    requires placed_3 { Ranked (part_of file.now) at words.now }
    requires n_value_1 { n ≡ faces_of (part_of file.now) }
    requires n_value_2 { f < n }
    requires n_value_3 { g < n }
    ensures { PairIs (part_of file.now) f g result }
{
    let ranks = at.ranks;
    let a = cell(words, ranks + f);
    let b = cell(words, ranks + g);
    if b < a {
        return FacePair {
            first: g,
            second: f,
            key: pair_key(b, a, n),
        };
    }
    FacePair {
        first: f,
        second: g,
        key: pair_key(a, b, n),
    }
}
