// `Not closed`.
ghost use Rattle.std.specs.Prelude.{◌≡◌, true, cond, ◌+◌, ◌≤◌, ◌<◌, eqb};
ghost use Rattle.file_part.specs.Part.{part_of};
ghost use Rattle.solid_faces.specs.Faces.{faces_of};
ghost use Rattle.scratch.specs.Standing.{Standing};
ghost use Rattle.fault_row.specs.Flaws.{FlawsPut};
ghost use Rattle.print_walls.specs.fault_text.specs.Good.{Good};
ghost use Rattle.rule_printing.specs.Closed.{open_keys, not_closed};
ghost use Rattle.rule_printing.specs.Work.{NotClosedPut};

use fault_row::flaw::{Flaw, put_flaw};
use list_cells::cell;
use scratch::regions::Regions;

// One more than k where the pair of side s says that s alone has its key, else k.
fn counted(pair: usize, s: usize, k: usize) -> usize
    requires fact_1 { s < 4294967296 }
    requires fact_2 { k < 4294967296 }
    ensures { result ≡ cond (eqb pair (s + 1)) (k + 1) k }
{
    if pair == s + 1 {
        return k + 1;
    }
    k
}

// How many keys of a part whose segments stand in the scratch one side alone has. (The file and the reals are lent for their meaning.)
fn open_keys(file: &[u8], words: &[u32], reals: &[f64], at: Regions) -> usize
    requires fact_1 { Standing file.now at words.now reals.now }
    requires fact_2 { at.segments ≡ true }
    ensures fact_1 { result ≡ open_keys (part_of file.now) }
    ensures fact_2 { result ≤ 16384 }
{
    let sides = at.sides;
    let mut k = 0;
    for s in 0..at.vertices {
        k = counted(cell(words, sides + (s * 3 + 2)), s, k);
    }
    k
}

// The row of so many open keys, as the first; none where there is no such key. How many there are then.
fn put_open(cells: &mut [u32], numbers: &mut [f64], keys: usize) -> usize
    requires { keys ≤ 16384 }
    ensures { NotClosedPut keys cells.old cells.new numbers.old numbers.new result }
{
    if keys == 0 {
        return 0;
    }
    let flaw = Flaw::NotClosed(keys as u32);
    put_flaw(cells, numbers, 0, flaw)
}

// The one row of a part that is not closed, as the first. How many faults there are then.
pub fn put_not_closed(
    file: &[u8],
    words: &[u32],
    reals: &[f64],
    cells: &mut [u32],
    numbers: &mut [f64],
    at: Regions,
) -> usize
    requires fact_1 { Standing file.now at words.now reals.now }
    requires fact_2 { at.segments ≡ true }
    requires fact_3 { 0 < faces_of (part_of file.now) }
    ensures fact_1 { FlawsPut (Good (part_of file.now)) 0 (not_closed (part_of file.now)) cells.old cells.new numbers.old numbers.new result }
    ensures fact_2 { result ≤ 1 }
{
    let keys = open_keys(file, words, reals, at);
    put_open(cells, numbers, keys)
}
