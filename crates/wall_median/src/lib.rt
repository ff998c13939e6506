// The weighted median of all thickness readings of a part: what the sheet metal rule first takes for its thickness.
#![tactic(auto)]

ghost use Rattle.std.specs.Prelude.{◌≡◌, ◌+◌, ◌≤◌, length};
ghost use Rattle.list_laws.specs.Region.{Outside};
ghost use Rattle.file_part.specs.Part.{part_of};
ghost use Rattle.scratch.specs.Standing.{Standing};
ghost use Rattle.wall_samples.specs.Samples.{readings_of};
ghost use Rattle.wall_samples.specs.Stored.{Readings};
ghost use Rattle.wall_median.specs.Rough.{rough_of};
ghost use Rattle.wall_median.specs.Work.{NumbersPut};

use list_median::weighted_median;
use scratch::regions::Regions;

// The numbers below n, from `at` on.
fn put_numbers(words: &mut [u32], at: usize, n: usize)
    requires fact_1 { at + n ≤ length words.old }
    requires fact_2 { n ≤ 4096 }
    ensures { NumbersPut n at words.old words.new }
{
    for i in 0..n {
        words[at + i] = i as u32;
    }
}

// The median of the n readings of a part, with their areas as weights; 0.0 where there is none. The cells of the order are the work.
pub fn rough(file: &[u8], words: &mut [u32], reals: &[f64], at: Regions, n: usize) -> f64
    requires fact_1 { Standing file.now at words.old reals.now }
    requires fact_2 { Readings (part_of file.now) at words.old reals.now }
    requires fact_3 { n ≡ length (readings_of (part_of file.now)) }
    ensures fact_1 { result ≡ rough_of (part_of file.now) }
    ensures fact_2 { Outside 0 at.order at.kinds words.old words.new }
{
    let order = at.order;
    put_numbers(words, order, n);
    let end = at.kinds;
    let thickness = at.thickness;
    let thickness_end = thickness + n;
    let area = at.weights;
    let area_end = area + n;
    weighted_median(
        &reals[thickness..thickness_end],
        &reals[area..area_end],
        &mut words[order..end],
        n,
    )
}
