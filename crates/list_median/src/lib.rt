// The value at half the total weight. Pairs of value and weight are numbers in a lent slice.
#![tactic(auto)]

ghost use Rattle.std.specs.Prelude.{◌≡◌, ◌≤◌, ◌<◌, length, get_or};
ghost use Rattle.std.specs.Float.{nan};
ghost use Rattle.list_sort.specs.Work.{Numbered};
ghost use Rattle.list_median.specs.Median.{weight_to, reached_at, Median};
ghost use Rattle.list_median.specs.Work.{Pairs};

use list_sort::sort;

// What a list has of pair k.
pub fn of_pair(list: &[f64], mem: &[u32], k: usize) -> f64
    requires fact_1 { k < length mem.now }
    requires fact_2 { get_or mem.now k 0 < length list.now }
    ensures { result ≡ get_or list.now (get_or mem.now k 0) nan }
{
    list[mem[k] as usize]
}

// The weights of the first n pairs, added.
pub fn weight_sum(weights: &[f64], mem: &[u32], n: usize) -> f64
    requires fact_1 { n ≤ length mem.now }
    requires fact_2 { Numbered weights.now mem.now 0 n }
    ensures { result ≡ weight_to weights.now mem.now n }
{
    let mut sum = 0.0;
    for k in 0..n {
        sum += of_pair(weights, mem, k);
    }
    sum
}

// The first of n pairs with which the weights come to a bound; n where none does.
fn reached(weights: &[f64], mem: &[u32], n: usize, bound: f64) -> usize
    requires fact_1 { n ≤ length mem.now }
    requires fact_2 { Numbered weights.now mem.now 0 n }
    ensures { result ≡ reached_at weights.now mem.now n bound }
{
    let mut acc = 0.0;
    for k in 0..n {
        acc += of_pair(weights, mem, k);
        if acc >= bound {
            return k;
        }
    }
    n
}

// The weighted median of the pairs whose numbers are the first n of mem. They are sorted by value, with the n cells after them as work.
pub fn weighted_median(values: &[f64], weights: &[f64], mem: &mut [u32], n: usize) -> f64
    requires { Pairs values.now weights.now mem.old n }
    ensures { Median values.now weights.now n mem.old mem.new result }
{
    sort(values, mem, n);
    if n == 0 {
        return 0.0;
    }
    let bound = 0.5 * weight_sum(weights, mem, n);
    let k = reached(weights, mem, n, bound);
    of_pair(values, mem, k.min(n - 1))
}
