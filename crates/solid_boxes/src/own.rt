// A polygon's own box.
ghost use Rattle.std.specs.Prelude.{◌≡◌, ◌<◌};
ghost use Rattle.file_part.specs.Layout.{vertex_count_of, polygon_count_of};
ghost use Rattle.file_part.specs.Part.{part_of};
ghost use Rattle.solid_faces.specs.solid_polygon.specs.Work.{corner_at, Corners};
ghost use Rattle.solid_faces.specs.Faces.{Checked};
ghost use Rattle.solid_boxes.specs.Bounds.{hull_of, widened, e_6, padded, own_box_of};

use crate::bounds::Bounds;
use file_part::corner::corner;
use file_part::read::{entry_at, first_vertex, run_length};

// The box of the n corners from vertex `first` on, moved 1e-6 outward, and 1e-9 more for the slab formula.
pub fn run_box(file: &[u8], first: usize, n: usize) -> Bounds
    requires fact_1 { Corners file.now first n }
    requires fact_2 { 0 < n }
    ensures { result ≡ padded (widened e_6 (hull_of (corner_at file.now first) n)) }
{
    let a = corner(file, first);
    let mut b = Bounds { lo: a, hi: a };
    for k in 0..n {
        b = b.grow(corner(file, first + k));
    }
    b.widen(1e-6).widen(1e-9)
}

// The own box of polygon p of a file with so many vertices, as the slab formula takes it.
pub fn own_box(file: &[u8], vertices: usize, p: usize) -> Bounds
    requires fact_1 { Checked file.now }
    requires fact_2 { vertices ≡ vertex_count_of file.now }
    requires fact_3 { p < polygon_count_of file.now }
    ensures { result ≡ padded (own_box_of (part_of file.now) p) }
{
    let entry = entry_at(vertices, p);
    let first = first_vertex(file, entry);
    let n = run_length(file, entry);
    run_box(file, first, n)
}
