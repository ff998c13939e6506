// Whether a side is an edge, and between which faces.
ghost use Rattle.std.specs.Prelude.{◌≡◌, ◌<◌};
ghost use Rattle.file_part.specs.Layout.{vertex_count_of, polygon_count_of};
ghost use Rattle.file_part.specs.Part.{part_of};
ghost use Rattle.solid_segments.specs.Sides.{owner_of, to_of};
ghost use Rattle.solid_edges.specs.Edges.{pair_in, face_of_side};
ghost use Rattle.solid_edges.specs.Work.{leads_to, EdgeIs, Lent};

use file_part::read::vertex_count;
use list_cells::cell;

// A side that is an edge: its own face and the face beyond.
#[derive(Clone, Copy)]
pub struct Edge {
    pub near: usize,
    pub beyond: usize,
}

// The pair of side s. (Here and below the file is lent for its meaning: the slices hold what was found in it.)
// One line for each column: a column's number as a parameter would say less, and four callers' words would stay.
#[tactic(auto, using(crate::proofs::ScanLaws::few_vertices, crate::proofs::ScanLaws::side_room, crate::proofs::ScanLaws::pair_is))]
pub fn pair_at(file: &[u8], sides: &[u32], faces: &[u32], s: usize) -> usize
    requires fact_1 { Lent file.now sides.now faces.now }
    requires fact_2 { s < vertex_count_of file.now }
    ensures { result ≡ pair_in (part_of file.now) s }
{
    cell(sides, s * 3 + 2)
}

// The polygon of side s.
#[tactic(auto, using(crate::proofs::ScanLaws::few_vertices, crate::proofs::ScanLaws::side_room, crate::proofs::ScanLaws::owner_same, crate::proofs::ScanLaws::owner_in))]
pub fn owner_at(file: &[u8], sides: &[u32], faces: &[u32], s: usize) -> usize
    requires fact_1 { Lent file.now sides.now faces.now }
    requires fact_2 { s < vertex_count_of file.now }
    ensures fact_1 { result ≡ owner_of (part_of file.now) s }
    ensures fact_2 { result < polygon_count_of file.now }
{
    cell(sides, s * 3 + 1)
}

// The vertex where side s ends.
#[tactic(auto, using(crate::proofs::ScanLaws::few_vertices, crate::proofs::ScanLaws::side_room, crate::proofs::ScanLaws::end_is, crate::proofs::ScanLaws::end_in))]
pub fn end_at(file: &[u8], sides: &[u32], faces: &[u32], s: usize) -> usize
    requires fact_1 { Lent file.now sides.now faces.now }
    requires fact_2 { s < vertex_count_of file.now }
    ensures fact_1 { result ≡ to_of (part_of file.now) s }
    ensures fact_2 { result < vertex_count_of file.now }
{
    cell(sides, s * 3)
}

// The face of side s.
#[tactic(auto, using(crate::proofs::ScanLaws::owner_room, crate::proofs::ScanLaws::face_is))]
fn face_at(file: &[u8], sides: &[u32], faces: &[u32], s: usize) -> usize
    requires fact_1 { Lent file.now sides.now faces.now }
    requires fact_2 { s < vertex_count_of file.now }
    ensures { result ≡ face_of_side (part_of file.now) s }
{
    cell(faces, owner_at(file, sides, faces, s))
}

// Side s seen as an edge, where it is one.
pub fn edge_at(file: &[u8], sides: &[u32], faces: &[u32], s: usize) -> Option<Edge>
    requires fact_1 { Lent file.now sides.now faces.now }
    requires fact_2 { s < vertex_count_of file.now }
    ensures { EdgeIs (part_of file.now) s result }
{
    let pair = pair_at(file, sides, faces, s);
    // No other side has the key of side s, or s is not the first that has it.
    if pair <= s + 1 {
        return None;
    }
    // More than two sides have it.
    if vertex_count(file) < pair {
        return None;
    }
    let near = face_at(file, sides, faces, s);
    let beyond = face_at(file, sides, faces, pair - 1);
    // It lies inside one face.
    if near == beyond {
        return None;
    }
    Some(Edge { near, beyond })
}

// The face that side s leads to from face f, where it is an edge of f.
pub fn leads_to(file: &[u8], sides: &[u32], faces: &[u32], f: usize, s: usize) -> Option<usize>
    requires fact_1 { Lent file.now sides.now faces.now }
    requires fact_2 { s < vertex_count_of file.now }
    ensures { result ≡ leads_to (part_of file.now) f s }
{
    let e = edge_at(file, sides, faces, s)?;
    if e.near == f {
        return Some(e.beyond);
    }
    if e.beyond == f {
        return Some(e.near);
    }
    None
}
