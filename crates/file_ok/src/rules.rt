// Whether vertices and polygon entries are within the rules (refusals 6 and 7).
ghost use Rattle.std.specs.Prelude.{◌≡◌, ◌+◌, ◌*◌, ◌≤◌, length};
ghost use Rattle.file_part.specs.Layout.{entry_at};
ghost use Rattle.file_ok.specs.Rules.{vertices_good, axis_good, radius_good, surface_good, run_good, entry_good, polygons_good};

use file_part::file_field::read::{f64_at, u32_at, vec_at};
use file_part::file_field::test::{in_range, is_direction, is_point, zero_words};
use file_part::read::{entry_at, first_vertex, run_length, vertex};

// Every coordinate of the vertices is in its range.
pub fn vertices_are_good(file: &[u8], vertices: usize) -> bool
    requires { 24 * vertices ≤ length file.now }
    ensures { result ≡ vertices_good file.now vertices }
{
    for i in 0..vertices {
        if !is_point(vertex(file, i)) {
            return false;
        }
    }
    true
}

// The origin and the direction of a polygon's surface.
fn axis_is_good(file: &[u8], at: usize) -> bool
    requires { at + 80 ≤ length file.now }
    ensures { result ≡ axis_good file.now at }
{
    is_point(vec_at(file, at + 24)) & is_direction(vec_at(file, at + 48))
}

fn radius_is_good(file: &[u8], at: usize) -> bool
    requires { at + 80 ≤ length file.now }
    ensures { result ≡ radius_good file.now at }
{
    in_range(0.001, f64_at(file, at + 72), 10000.0)
}

// The fields of the surface, those that its kind has no use for included.
fn surface_is_good(file: &[u8], at: usize, kind: u32) -> bool
    requires { at + 80 ≤ length file.now }
    ensures { result ≡ surface_good kind file.now at }
{
    match kind {
        0 | 3 => zero_words(file, at + 24, 7),
        1 => axis_is_good(file, at) & radius_is_good(file, at),
        2 => axis_is_good(file, at) & zero_words(file, at + 72, 1),
        _ => false,
    }
}

// A polygon's run begins at `first`, and is neither too short, too long nor past the last vertex.
fn run_is_good(file: &[u8], vertices: usize, at: usize, first: usize) -> bool
    requires fact_1 { at + 80 ≤ length file.now }
    requires fact_2 { first ≤ 4294967296 }
    ensures { result ≡ run_good file.now vertices at first }
{
    let count = run_length(file, at);
    (first_vertex(file, at) == first) & (3 <= count) & (count <= 64) & (first + count <= vertices)
}

// The entry at `at`, whose run begins at `first`.
fn entry_is_good(file: &[u8], vertices: usize, at: usize, first: usize) -> bool
    requires fact_1 { at + 80 ≤ length file.now }
    requires fact_2 { first ≤ 4294967296 }
    ensures { result ≡ entry_good file.now vertices at first }
{
    run_is_good(file, vertices, at, first)
        & (u32_at(file, at + 20) == 0)
        & surface_is_good(file, at, u32_at(file, at + 16))
}

// Every polygon's entry is good, and the runs fill the vertex block.
pub fn polygons_are_good(file: &[u8], vertices: usize, polygons: usize) -> bool
    requires fact_1 { entry_at vertices polygons ≤ length file.now }
    requires fact_2 { vertices ≤ 16384 }
    requires fact_3 { polygons ≤ 4096 }
    ensures { result ≡ polygons_good file.now vertices polygons }
{
    let mut first: usize = 0;
    for p in 0..polygons {
        let at = entry_at(vertices, p);
        if !entry_is_good(file, vertices, at, first) {
            return false;
        }
        first += run_length(file, at);
    }
    first == vertices
}
