// The corners of a part in a slice of 4 n numbers: of each of the n vertices the polygon that it belongs to, then of each its key in three numbers.
ghost use Rattle.std.specs.Prelude.{◌≡◌, ◌*◌, ◌<◌, length};
ghost use Rattle.num_float.specs.Within.{Within};
ghost use Rattle.file_part.specs.Layout.{vertex_count_of};
ghost use Rattle.file_part.specs.Part.{part_of};
ghost use Rattle.file_ok.specs.Work.{Readable};
ghost use Rattle.solid_bodies.specs.Work.{number_of, KeyPut, Keyed, Owned, Cornered};

use file_part::corner::corner;
use file_part::read::{entry_at, first_vertex, polygon_count, run_length};
use list_cells::fill;
use num_real::rounding::round_i64;

// A coordinate times 1e5, rounded, and counted from -10^9.
fn key_number(x: f64) -> u32
    requires { Within x 10000 }
    ensures { result ≡ number_of x }
{
    (round_i64(x * 100000.0) + 1000000000) as u32
}

// The key of vertex v.
fn put_key(file: &[u8], corners: &mut [u32], n: usize, v: usize)
    requires fact_1 { Readable file.now }
    requires fact_2 { n ≡ vertex_count_of file.now }
    requires fact_3 { length corners.old ≡ 4 * n }
    requires fact_4 { v < n }
    ensures { KeyPut (part_of file.now) n v corners.old corners.new }
{
    let at = corner(file, v);
    let k = n + 3 * v;
    corners[k] = key_number(at.x);
    corners[k + 1] = key_number(at.y);
    corners[k + 2] = key_number(at.z);
}

// The keys of all vertices.
fn put_keys(file: &[u8], corners: &mut [u32], n: usize)
    requires fact_1 { Readable file.now }
    requires fact_2 { n ≡ vertex_count_of file.now }
    requires fact_3 { length corners.old ≡ 4 * n }
    ensures { Keyed (part_of file.now) n n corners.old corners.new }
{
    for v in 0..n {
        put_key(file, corners, n, v);
    }
}

// The polygon of each vertex: the runs follow on and fill the vertex block.
fn put_owners(file: &[u8], corners: &mut [u32], n: usize)
    requires fact_1 { Readable file.now }
    requires fact_2 { n ≡ vertex_count_of file.now }
    requires fact_3 { length corners.old ≡ 4 * n }
    ensures { Owned (part_of file.now) n corners.new }
{
    let polygons = polygon_count(file);
    for p in 0..polygons {
        let at = entry_at(n, p);
        let first = first_vertex(file, at);
        let end = first + run_length(file, at);
        fill(&mut corners[first..end], p as u32);
    }
}

// Owners and keys.
pub fn put_corners(file: &[u8], corners: &mut [u32], n: usize)
    requires fact_1 { Readable file.now }
    requires fact_2 { n ≡ vertex_count_of file.now }
    requires fact_3 { length corners.old ≡ 4 * n }
    ensures { Cornered (part_of file.now) n corners.new }
{
    put_owners(file, corners, n);
    put_keys(file, corners, n);
}
