// Chains of corners by slot, to find an earlier corner of the same key. A slice of corners has n owners, then three numbers a key;
// a table has n slots, then of each corner the one before it in its slot, each one more than the corner's number, 0 for none.
ghost use Rattle.std.specs.Prelude.{◌≡◌, ◌+◌, ◌*◌, ◌<◌, ◌^◌, length, get_or, set};
ghost use Rattle.solid_bodies.specs.Work.{key_at, eq_key, corners_of, slot_of, Before, Hashed};

// The polygon that corner v belongs to.
pub fn owner(corners: &[u32], v: usize) -> usize
    requires { v < length corners.now }
    ensures { result ≡ get_or corners.now v 0 }
{
    corners[v] as usize
}

// Whether the corners u and v have one key.
#[tactic(auto, unfolding(crate::specs::Work::eq_key))]
pub fn same(corners: &[u32], n: usize, u: usize, v: usize) -> bool
    requires fact_1 { length corners.now ≡ 4 * n }
    requires fact_2 { u < n }
    requires fact_3 { v < n }
    ensures { result ≡ eq_key (key_at n corners.now u) (key_at n corners.now v) }
{
    let a = n + 3 * u;
    let b = n + 3 * v;
    (corners[a] == corners[b])
        & (corners[a + 1] == corners[b + 1])
        & (corners[a + 2] == corners[b + 2])
}

// The slot of corner v.
pub fn slot(corners: &[u32], n: usize, v: usize) -> usize
    requires fact_1 { length corners.now ≡ 4 * n }
    requires fact_2 { v < n }
    ensures { result ≡ slot_of n (key_at n corners.now v) }
{
    let a = n + 3 * v;
    let x = corners[a] as usize;
    let y = corners[a + 1] as usize;
    let z = corners[a + 2] as usize;
    (x * 73856093 + y * 19349663 + z * 83492791) / 16777216 % n
}

// A corner before v with v's key, by the corners in v's slot h.
pub fn find(corners: &[u32], table: &[u32], n: usize, h: usize, v: usize) -> Option<usize>
    requires corners_len_1 { length corners.now ≡ 4 * n }
    requires corners_len_2 { length table.now ≡ 2 * n }
    requires corners_len_3 { v < n }
    requires h_value_1 { h ≡ slot_of n (key_at n corners.now v) }
    requires h_value_2 { Hashed (corners_of n corners.now) n table.now v }
    ensures { Before (corners_of n corners.now) v result }
{
    let mut at = table[h] as usize;
    // A while: the chain of links in the slot is followed to its end.
    while 0 < at {
        let u = at - 1;
        if same(corners, n, u, v) {
            return Some(u);
        }
        at = table[n + u] as usize;
    }
    None
}

// Puts corner v in front of the slot h.
pub fn push(table: &mut [u32], n: usize, h: usize, v: usize)
    requires fact_1 { length table.old ≡ 2 * n }
    requires fact_2 { h < n }
    requires fact_3 { v < n }
    requires fact_4 { v + 1 < 2 ^ 32 }
    ensures { table.new ≡ set (set table.old (n + v) (get_or table.old h 0)) h (v + 1) }
{
    let k = n + v;
    table[k] = table[h];
    table[h] = (v + 1) as u32;
}
