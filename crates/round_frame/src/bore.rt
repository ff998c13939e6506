// Whether the vertices of a face go all the way round its axis. Their directions are put into cells, one after another.
ghost use Rattle.std.specs.Prelude.{◌≡◌, true, ◌++◌, ◌+◌, ◌≤◌, ◌<◌, length};
ghost use Rattle.math.specs.Size.{VecWithin};
ghost use Rattle.file_part.specs.Layout.{vertex_count_of};
ghost use Rattle.file_part.specs.Part.{part_of};
ghost use Rattle.file_ok.specs.Rules.{run_start};
ghost use Rattle.file_ok.specs.Work.{Readable};
ghost use Rattle.solid_polygon.specs.Work.{corner_at};
ghost use Rattle.solid_faces.specs.Faces.{is_new, face_number, polygon_corner};
ghost use Rattle.solid_faces.specs.Kept.{Chain};
ghost use Rattle.round_hole.specs.Direction.{goes_round_of};
ghost use Rattle.round_hole.specs.Work.{directions_in};
ghost use Rattle.round_frame.specs.Frame.{vertex_directions, run_directions};
ghost use Rattle.round_frame.specs.Work.{Central, DirectionsPut};
ghost use Rattle.round_frame.specs.Polygons.{directions_to};

use crate::frame::Frame;
use file_part::corner::corner;
use file_part::read::{entry_at, first_vertex, polygon_count, run_length, vertex_count};
use math::Vec3;
use round_hole::cells::pack;
use round_hole::hole::goes_round;
use round_hole::offsets::{direction, length};

// The direction that a vertex gives, into cell n; a drill point, on the axis, gives none. How many cells have one then.
fn put_directions(cells: &mut [f64], n: usize, frame: Frame, vertex: Vec3) -> usize
    requires fact_1 { n < length cells.old }
    requires fact_2 { Central frame }
    requires fact_3 { VecWithin vertex 10000 }
    ensures { DirectionsPut cells.old cells.new (n + 1) result (directions_in n cells.old ++ vertex_directions frame vertex) }
{
    let d = vertex.sub(frame.origin);
    let x = d.dot(frame.x);
    let y = d.dot(frame.y);
    let length = length(x, y);
    if length < 1e-6 {
        return n;
    }
    cells[n] = pack(direction(x, y, length));
    n + 1
}

// Those of the corners of a polygon.
fn run_directions(
    file: &[u8],
    first: usize,
    count: usize,
    frame: Frame,
    cells: &mut [f64],
    n: usize,
) -> usize
    requires fact_1 { Readable file.now }
    requires fact_2 { first + count ≤ vertex_count_of file.now }
    requires fact_3 { n + count ≤ length cells.old }
    requires fact_4 { Central frame }
    ensures { DirectionsPut cells.old cells.new (n + count) result (directions_in n cells.old ++ run_directions frame (corner_at file.now first) count) }
{
    let mut m = n;
    for k in 0..count {
        m = put_directions(cells, m, frame, corner(file, first + k));
    }
    m
}

// Those of polygon q, of a file with v vertices: there are no more than the vertices up to q's last.
fn polygon_directions(
    file: &[u8],
    v: usize,
    q: usize,
    frame: Frame,
    cells: &mut [f64],
    n: usize,
) -> usize
    requires readable_1 { Readable file.now }
    requires readable_2 { v ≡ vertex_count_of file.now }
    requires readable_3 { q < (part_of file.now).polygons }
    requires v_in_bounds_1 { v ≤ length cells.old }
    requires v_in_bounds_2 { n ≤ run_start file.now v q }
    requires v_in_bounds_3 { Central frame }
    ensures { DirectionsPut cells.old cells.new (run_start file.now v (q + 1)) result (directions_in n cells.old ++ run_directions frame (polygon_corner (part_of file.now) q) ((part_of file.now).polygon q).count) }
{
    let at = entry_at(v, q);
    run_directions(
        file,
        first_vertex(file, at),
        run_length(file, at),
        frame,
        cells,
        n,
    )
}

// Those of all polygons of the face that begins with polygon `first`.
fn face_directions(
    file: &[u8],
    chain: &[u32],
    cells: &mut [f64],
    first: usize,
    frame: Frame,
) -> usize
    requires readable_1 { Readable file.now }
    requires readable_2 { Chain (part_of file.now) chain.now }
    requires first_bound_1 { first < (part_of file.now).polygons }
    requires first_bound_2 { is_new (part_of file.now) first ≡ true }
    requires file_in_bounds_1 { vertex_count_of file.now ≤ length cells.old }
    requires file_in_bounds_2 { Central frame }
    ensures { DirectionsPut cells.old cells.new (vertex_count_of file.now) result (directions_to (part_of file.now) (face_number (part_of file.now) first) frame (part_of file.now).polygons) }
{
    let p = polygon_count(file);
    let v = vertex_count(file);
    let mut n: usize = 0;
    let mut q = first;
    // A while: the next polygon is the one that the chain names.
    while q < p {
        n = polygon_directions(file, v, q, frame, cells, n);
        q = chain[q] as usize;
    }
    n
}

// Whether they go round.
pub fn is_bore(file: &[u8], chain: &[u32], cells: &mut [f64], first: usize, frame: Frame) -> bool
    requires readable_1 { Readable file.now }
    requires readable_2 { Chain (part_of file.now) chain.now }
    requires first_bound_1 { first < (part_of file.now).polygons }
    requires first_bound_2 { is_new (part_of file.now) first ≡ true }
    requires file_in_bounds_1 { vertex_count_of file.now ≤ length cells.old }
    requires file_in_bounds_2 { Central frame }
    ensures value { result ≡ goes_round_of (directions_to (part_of file.now) (face_number (part_of file.now) first) frame (part_of file.now).polygons) }
    ensures cells_len_unchanged { length cells.new ≡ length cells.old }
{
    let n = face_directions(file, chain, cells, first, frame);
    goes_round(&cells[..], n)
}
