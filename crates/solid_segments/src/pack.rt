// The cells of the sides moved together, once the sides are paired: three cells a side are read from then on, and five are free in one piece.
ghost use Rattle.std.specs.Prelude.{◌+◌, ◌*◌, ◌≤◌, ◌<◌, length};
ghost use Rattle.solid_segments.specs.Work.{PackedMore, Packed};

// Side s; those before it are packed.
fn pack_side(mem: &mut [u32], s: usize)
    requires fact_1 { s * 8 + 8 ≤ length mem.old }
    requires fact_2 { s < 16384 }
    ensures { PackedMore s mem.old mem.new }
{
    let end = mem[s * 8 + 3];
    let owner = mem[s * 8 + 4];
    let pair = mem[s * 8 + 7];
    mem[s * 3] = end;
    mem[s * 3 + 1] = owner;
    mem[s * 3 + 2] = pair;
}

// All sides.
pub fn pack_sides(mem: &mut [u32], vertices: usize)
    requires fact_1 { vertices * 8 ≤ length mem.old }
    requires fact_2 { vertices ≤ 16384 }
    ensures { Packed vertices mem.old mem.new }
{
    for s in 0..vertices {
        pack_side(mem, s);
    }
}
