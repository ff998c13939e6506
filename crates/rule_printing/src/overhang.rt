// `Overhang`.
ghost use Rattle.std.specs.Prelude.{◌≡◌, ◌<◌};
ghost use Rattle.file_part.specs.Part.{part_of};
ghost use Rattle.print_overhang.specs.Overhang.{lean_of_word};
ghost use Rattle.rule_printing.specs.Work.{OverhangPut, HeightsAre};

use fault_row::flaw::{Flaw, put_flaw};
use math::Vec3;
use num_real::select::max;
use num_sine::sine;
use print_overhang::{Lean, Overhang};
use round_frame::extent::Extent;

// What polygons are held against, by the build direction, the heights along it and the limit in tenths of a degree.
pub fn lean_of(file: &[u8], up: Vec3, heights: Extent, tenths: u32) -> Lean
    requires { HeightsAre (part_of file.now) up heights tenths }
    ensures { result ≡ lean_of_word (part_of file.now) }
{
    let tol = 1e-6 * max(heights.hi - heights.lo, 1.0);
    Lean {
        up,
        plate: heights.lo + tol,
        steep: sine(tenths) + 1e-9,
    }
}

// The one row of all faces that hang over, after `from` others; none where there is no such face. How many there are then.
pub fn put_overhang(cells: &mut [u32], numbers: &mut [f64], from: usize, found: Overhang) -> usize
    requires fact_1 { from < 4294967296 }
    requires fact_2 { found.count < 4294967296 }
    ensures { OverhangPut found from cells.old cells.new numbers.old numbers.new result }
{
    if found.count == 0 {
        return from;
    }
    let flaw = Flaw::Overhang(found.count as u32, found.area);
    put_flaw(cells, numbers, from, flaw)
}
