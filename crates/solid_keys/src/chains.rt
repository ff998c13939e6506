// Which sides have one key, by chains through the slots of a hash. All stands in one slice, eight cells a side.
ghost use Rattle.std.specs.Prelude.{◌≡◌, cond, ℕ, ◌+◌, ◌*◌, ◌<◌, ◌≤◌, eqb, length};
ghost use Rattle.solid_keys.specs.Pair.{above, both_ends, same_pair};
ghost use Rattle.solid_keys.specs.Work.{col, same_cells, live_cells, side_cells, Sides, Kept, mix, slot, Next, Before, Out, Step, Paired};

// Vertices a and b have one key.
#[tactic(auto, unfolding(crate::specs::Work::same_cells))]
fn same_end(mem: &[u32], a: usize, b: usize) -> bool
    requires { (a * 8 + 8 ≤ length mem.now) × (b * 8 + 8 ≤ length mem.now) }
    ensures { result ≡ same_cells mem.now a b }
{
    let p = a * 8;
    let q = b * 8;
    (mem[p + 0] == mem[q + 0]) & (mem[p + 1] == mem[q + 1]) & (mem[p + 2] == mem[q + 2])
}

// The ends a, b have the keys of c, d, in this order.
#[tactic(auto, unfolding(crate::specs::Pair::both_ends))]
fn both_ends(mem: &[u32], a: usize, b: usize, c: usize, d: usize) -> bool
    requires a_in_bounds { (a * 8 + 8 ≤ length mem.now) × (b * 8 + 8 ≤ length mem.now) }
    requires c_in_bounds { (c * 8 + 8 ≤ length mem.now) × (d * 8 + 8 ≤ length mem.now) }
    ensures { result ≡ both_ends (same_cells mem.now) a b c d }
{
    same_end(mem, a, c) && same_end(mem, b, d)
}

// The same in either order.
#[tactic(auto, unfolding(crate::specs::Pair::same_pair))]
fn same_pair(mem: &[u32], a: usize, b: usize, c: usize, d: usize) -> bool
    requires a_in_bounds { (a * 8 + 8 ≤ length mem.now) × (b * 8 + 8 ≤ length mem.now) }
    requires c_in_bounds { (c * 8 + 8 ≤ length mem.now) × (d * 8 + 8 ≤ length mem.now) }
    ensures { result ≡ same_pair (same_cells mem.now) a b c d }
{
    both_ends(mem, a, b, c, d) || both_ends(mem, a, b, d, c)
}

// The two end keys of side s differ.
#[tactic(auto, unfolding(crate::specs::Work::live_cells, crate::specs::Pair::is_live))]
fn is_live(mem: &[u32], n: usize, s: usize) -> bool
    requires fact_1 { Sides mem.now n }
    requires fact_2 { s < n }
    ensures { result ≡ live_cells mem.now s }
{
    let to = mem[s * 8 + 3] as usize;
    !same_end(mem, s, to)
}

// Side u has the key of side s.
#[tactic(auto, unfolding(crate::specs::Work::side_cells, crate::specs::Work::live_cells, crate::specs::Pair::side_key))]
fn same_side(mem: &[u32], n: usize, u: usize, s: usize) -> bool
    requires fact_1 { Sides mem.now n }
    requires fact_2 { u < n }
    requires fact_3 { s < n }
    ensures { result ≡ side_cells mem.now u s }
{
    let a = mem[u * 8 + 3] as usize;
    let b = mem[s * 8 + 3] as usize;
    is_live(mem, n, s) && same_pair(mem, u, a, s, b)
}

// A number made of the key of vertex v.
#[tactic(auto, unfolding(crate::specs::Work::mix))]
fn mix_of(mem: &[u32], v: usize) -> u64
    requires { v * 8 + 8 ≤ length mem.now }
    ensures { (result ≡ mix mem.now v) × (result < 1152921504606846976) }
{
    let p = v * 8;
    u64::from(mem[p + 0]) * 73856093
        + u64::from(mem[p + 1]) * 19349663
        + u64::from(mem[p + 2]) * 83492791
}

// The slot of side s.
#[tactic(auto, unfolding(crate::specs::Work::slot))]
fn slot_of(mem: &[u32], n: usize, s: usize) -> usize
    requires fact_1 { Sides mem.now n }
    requires fact_2 { s < n }
    ensures { (result ≡ slot mem.now n s) × (result < n) }
{
    let a = mix_of(mem, s);
    let b = mix_of(mem, mem[s * 8 + 3] as usize);
    let h = (a + b) / 16777216;
    (h as usize) % n
}

// One more than the highest side below s that has its key, or 0, where `from` is that of the highest side below s in its slot.
// A number, not an Option: it is what the cell holds.
fn find(mem: &[u32], n: usize, s: usize, from: u32) -> u32
    requires sides_1 { Sides mem.now n }
    requires sides_2 { s < n }
    requires sides_3 { Next (slot mem.now n) (col mem.now 5) s }
    requires from_value { from ≡ above (λ u. eqb (slot mem.now n u) (slot mem.now n s)) s }
    ensures { result ≡ above (λ u. side_cells mem.now u s) s }
{
    // A side whose end keys agree has no key, and many of them may stand in one slot.
    if !is_live(mem, n, s) {
        return 0;
    }
    let mut t = from;
    // A while: the chain of links in the slot is followed to its end.
    while t > 0 {
        let u = (t - 1) as usize;
        if same_side(mem, n, u, s) {
            return t;
        }
        t = mem[u * 8 + 5];
    }
    0
}

// Empties the slots.
fn clear(mem: &mut [u32], n: usize)
    requires fact_1 { n * 8 ≤ length mem.old }
    requires fact_2 { n ≤ 16384 }
    ensures kept { Kept 4 mem.old mem.new }
    ensures by_index { (s : ℕ) → s < n → col mem.new 4 s ≡ 0 }
{
    for s in 0..n {
        mem[s * 8 + 4] = 0;
    }
}

// Leads from each side to the one before it that has its key, where the slots are empty.
fn link(mem: &mut [u32], n: usize)
    requires fact_1 { Sides mem.old n }
    requires fact_2 { ((s : ℕ) → s < n → col mem.old 4 s ≡ 0) }
    ensures kept { Kept 4 mem.old mem.new }
    ensures before { Before (side_cells mem.old) (col mem.new 6) n }
{
    for s in 0..n {
        let h = slot_of(mem, n, s);
        let from = mem[h * 8 + 4];
        let p = find(mem, n, s, from);
        mem[s * 8 + 6] = p;
        mem[s * 8 + 5] = from;
        mem[h * 8 + 4] = (s + 1) as u32;
    }
}

// The pair of side s where no side below it has its key.
// A number, not an Option: it is what the cell is to hold.
fn own_pair(mem: &[u32], n: usize, s: usize) -> u32
    requires fact_1 { Sides mem.now n }
    requires fact_2 { s < n }
    ensures { result ≡ cond (live_cells mem.now s) (s + 1) 0 }
{
    if is_live(mem, n, s) {
        return (s + 1) as u32;
    }
    0
}

// The pair of a side that two later sides follow: where it is the first of its key, which `prev` tells, there are more than two.
// A number, not an Option: it is what the cell is to hold.
fn third_pair(prev: u32, n: usize) -> u32
    requires { n ≤ 16384 }
    ensures { result ≡ cond (eqb prev 0) (n + 1) 0 }
{
    if prev == 0 {
        return (n + 1) as u32;
    }
    0
}

// Pairs side s, after all sides below it.
fn pair_one(mem: &mut [u32], n: usize, s: usize)
    requires sides_1 { Sides mem.old n }
    requires sides_2 { s < n }
    requires sides_3 { Before (side_cells mem.old) (col mem.old 6) n }
    requires out { Out (side_cells mem.old) (n + 1) s (col mem.old 7) }
    ensures { Step mem.old mem.new n s }
{
    let p = mem[s * 8 + 6] as usize;
    if p == 0 {
        mem[s * 8 + 7] = own_pair(mem, n, s);
        return;
    }
    let u = p - 1;
    let q = mem[u * 8 + 6] as usize;
    if q == 0 {
        mem[s * 8 + 7] = 0;
        mem[u * 8 + 7] = (s + 1) as u32;
        return;
    }
    let w = q - 1;
    let third = third_pair(mem[w * 8 + 6], n);
    mem[s * 8 + 7] = 0;
    mem[w * 8 + 7] = third;
}

// Pairs all sides, from the side before each that has its key.
fn pair(mem: &mut [u32], n: usize)
    requires fact_1 { Sides mem.old n }
    requires fact_2 { Before (side_cells mem.old) (col mem.old 6) n }
    ensures { Paired mem.old mem.new n }
{
    for s in 0..n {
        pair_one(mem, n, s);
    }
}

// The pairs of n sides, in column 7, from columns 0 to 3.
pub fn pair_sides(mem: &mut [u32], n: usize)
    requires { Sides mem.old n }
    ensures { Paired mem.old mem.new n }
{
    clear(mem, n);
    link(mem, n);
    pair(mem, n);
}
