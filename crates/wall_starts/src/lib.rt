// Which polygons of a face the rays of `thickness_samples` start from: how many rays a face gets, and the order of its polygons.
#![tactic(auto)]

ghost use Rattle.std.specs.Prelude.{◌≡◌, ◌+◌, ◌≤◌, length};
ghost use Rattle.wall_starts.specs.Starts as starts;
ghost use Rattle.wall_starts.specs.Work.{Total, Negated, Room, Gathered, Ordered};

use list_sort::sort;
use num_real::rounding::ceil_usize;

// The rays that the faces share by area.
const RAY_BUDGET: f64 = 600.0;

// How many rays a face gets: at least one, the rest by its share of the total area.
pub fn share(area: f64, total: f64) -> usize
    ensures fact_1 { result ≡ starts.share area total }
    ensures fact_2 { 1 ≤ result }
{
    ceil_usize((area / total) * RAY_BUDGET).max(1)
}

// The areas of the first n faces, added.
pub fn total_area(areas: &[f64], n: usize) -> f64
    requires { n ≤ length areas.now }
    ensures { Total areas.now n result }
{
    let mut total = 0.0;
    for f in 0..n {
        total += areas[f];
    }
    total
}

// The n areas that stand from `areas` on, negated, from `falling` on: sorted by these, polygons go by falling area.
pub fn put_falling(reals: &mut [f64], areas: usize, falling: usize, n: usize)
    requires fact_1 { areas + n ≤ falling }
    requires fact_2 { falling + n ≤ length reals.old }
    ensures { Negated reals.old reals.new areas falling n }
{
    for k in 0..n {
        reals[falling + k] = -reals[areas + k];
    }
}

// The polygons of the face that begins with polygon `first`, in rising order, from `order` on; how many there are. For each polygon the next
// one of its face stands from `chain` on.
fn gather(words: &mut [u32], chain: usize, order: usize, p: usize, first: usize) -> usize
    requires { Room words.old chain order p }
    ensures { Gathered words.old words.new chain order p first result }
{
    let mut n: usize = 0;
    let mut q = first;
    // A while: the next polygon is the one that the chain names.
    while q < p {
        words[order + n] = q as u32;
        n += 1;
        q = words[chain + q] as usize;
    }
    n
}

// The same polygons by falling area, the lower number first where areas are equal. Keys are the areas negated. The cells after the polygons,
// 2p in all, are work.
pub fn face_order(
    words: &mut [u32],
    keys: &[f64],
    chain: usize,
    order: usize,
    p: usize,
    first: usize,
) -> usize
    requires fact_1 { Room words.old chain order p }
    requires fact_2 { p ≤ length keys.now }
    ensures { Ordered keys.now words.old words.new chain order p first result }
{
    let n = gather(words, chain, order, p, first);
    let end = order + 2 * n;
    sort(keys, &mut words[order..end], n);
    n
}
