// Union-find over a slice of parents, in which no parent is above its child.
ghost use Rattle.std.specs.Prelude.{◌<◌, ◌^◌, length};
ghost use Rattle.solid_bodies.specs.Work.Forest.{Falls, Apart, Rooted, Linked, Flat};

// Each is its own root.
pub fn start(parents: &mut [u32])
    requires { length parents.old < 2 ^ 32 }
    ensures { Apart parents.new }
{
    for (i, parent) in parents.iter_mut().enumerate() {
        *parent = i as u32;
    }
}

// The root of i. Each second one on the way gets its parent's parent, so that later ways are shorter.
pub fn root(parents: &mut [u32], i: usize) -> usize
    requires fact_1 { i < length parents.old }
    requires fact_2 { Falls parents.old }
    ensures { Rooted parents.old parents.new i result }
{
    let mut at = i;
    let mut up = parents[at] as usize;
    // A while: the way leads from parent to parent.
    while up != at {
        let over = parents[up];
        parents[at] = over;
        at = over as usize;
        up = parents[at] as usize;
    }
    at
}

// Joins i and j: the higher root gets the lower for its parent, so that a root is the lowest of its tree.
pub fn link(parents: &mut [u32], i: usize, j: usize)
    requires fact_1 { length parents.old < 2 ^ 32 }
    requires fact_2 { i < length parents.old }
    requires fact_3 { j < length parents.old }
    requires fact_4 { Falls parents.old }
    ensures { Linked parents.old parents.new i j }
{
    let a = root(parents, i);
    let b = root(parents, j);
    if a < b {
        parents[b] = a as u32;
    } else {
        parents[a] = b as u32;
    }
}

// Each gets its root: by rising number, a parent has its own already.
pub fn flatten(parents: &mut [u32])
    requires { Falls parents.old }
    ensures { Flat parents.old parents.new }
{
    for i in 0..parents.len() {
        let up = parents[i] as usize;
        parents[i] = parents[up];
    }
}
