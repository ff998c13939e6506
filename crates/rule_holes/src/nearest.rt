// What is nearest to a hole: over the edges of the flat faces around it.
ghost use Rattle.std.specs.Prelude.{◌≡◌, true, cond, ◌≤◌, ◌<◌, length, set};
ghost use Rattle.file_part.specs.Part.{part_of};
ghost use Rattle.solid_faces.specs.Faces.{faces_of};
ghost use Rattle.scratch.specs.Standing.{Standing};
ghost use Rattle.solid_flat.specs.Flat.{is_flat_face};
ghost use Rattle.solid_tours.specs.Tours.{edges_between};
ghost use Rattle.solid_tours.specs.Work.Kept.{EdgesOrdered, GroupPlaces};
ghost use Rattle.solid_tours.specs.Work.Kept as tours;
ghost use Rattle.rule_holes.specs.Nearest.{nearer, nearest_from, gap_to, gaps_beside, gaps_from, nearest_of};
ghost use Rattle.rule_holes.specs.Work.{Plates, NearestThere, NoNearer};

use list_cells::fill;
use round_all::round::Round;
use scratch::regions::Regions;
use solid_flat::is_flat;
use solid_tours::tour::{
    Edges, Group, Places, between_distance, between_square, face_places, next_group,
};

// A face across an edge, and how far the edge is from the hole's.
#[derive(Clone, Copy)]
pub struct Gap {
    pub gap: f64,
    pub other: usize,
}

// The nearer of the nearest so far, if any, and one more: the first of equal ones.
#[tactic(auto, unfolding(crate::specs::Nearest::nearer))]
fn nearer(best: Option<Gap>, gap: Gap) -> Option<Gap>
    ensures { result ≡ nearer best gap }
{
    let Some(nearest) = best else {
        return Some(gap);
    };
    if gap.gap < nearest.gap {
        return Some(gap);
    }
    best
}

// Marks face g where it is flat.
fn put_plate(file: &[u8], words: &[u32], reals: &[f64], plates: &mut [u32], at: Regions, g: usize)
    requires fact_1 { Standing file.now at words.now reals.now }
    requires fact_2 { g < faces_of (part_of file.now) }
    requires fact_3 { g < length plates.old }
    ensures { plates.new ≡ cond (is_flat_face (part_of file.now) g) (set plates.old g 1) plates.old }
{
    if is_flat(file, words, reals, at, g) {
        plates[g] = 1;
    }
}

// Marks the flat faces around the hole of face h.
pub fn put_plates(
    file: &[u8],
    words: &[u32],
    reals: &[f64],
    plates: &mut [u32],
    edges: Edges,
    h: usize,
)
    requires edges_ordered_1 { EdgesOrdered file.now edges.at words.now reals.now }
    requires edges_ordered_2 { tours.Counted (part_of file.now) edges }
    requires edges_ordered_3 { h < faces_of (part_of file.now) }
    requires file_in_bounds { faces_of (part_of file.now) ≤ length plates.old }
    ensures fact_1 { Plates (part_of file.now) h plates.new }
    ensures fact_2 { length plates.new ≡ length plates.old }
{
    fill(plates, 0);
    let at = edges.at;
    let places = face_places(file, words, reals, edges, h);
    let end = places.end;
    let mut i = places.start;
    // A while: the next start is where the edges beside one neighbour end.
    while i < end {
        let rest = Places { start: i, end };
        let group = next_group(file, words, reals, at, h, rest);
        put_plate(file, words, reals, plates, at, group.other);
        i = group.end;
    }
}

// Whether the edge of a group is known to be no nearer than the nearest so far: none of its squared distances is below one that gives at least as much.
fn is_no_nearer(
    file: &[u8],
    words: &[u32],
    reals: &[f64],
    edges: Edges,
    hole: Round,
    group: Group,
    best: Option<Gap>,
) -> bool
    requires fact_1 { EdgesOrdered file.now edges.at words.now reals.now }
    requires fact_2 { tours.Counted (part_of file.now) edges }
    requires fact_3 { GroupPlaces (part_of file.now) edges.at words.now group }
    ensures { result ≡ true → NoNearer (part_of file.now) hole group best }
{
    let Some(nearest) = best else {
        return false;
    };
    let radius = hole.radius;
    let centre = hole.centre;
    let reach = nearest.gap + radius;
    // a little more than the square, whose root may be a little less than what it is the square of
    let square = reach * reach * 1.000000001;
    let least = between_square(file, words, reals, edges, group, centre, square);
    let gap = num_root::sqrt(square) - radius;
    (0.0 <= square) & !(least < square) & (nearest.gap <= gap)
}

// With the edge of a group, under a flat face around the hole.
fn with_group(
    file: &[u8],
    words: &[u32],
    reals: &[f64],
    plates: &[u32],
    edges: Edges,
    hole: Round,
    group: Group,
    best: Option<Gap>,
) -> Option<Gap>
    requires edges_ordered_1 { EdgesOrdered file.now edges.at words.now reals.now }
    requires edges_ordered_2 { tours.Counted (part_of file.now) edges }
    requires edges_ordered_3 { GroupPlaces (part_of file.now) edges.at words.now group }
    requires plates_1 { Plates (part_of file.now) hole.face plates.now }
    requires plates_2 { NearestThere (part_of file.now) best }
    ensures fact_1 { result ≡ nearest_from best (gap_to (part_of file.now) hole group.face group.other (edges_between (part_of file.now) group.face group.other)) }
    ensures fact_2 { NearestThere (part_of file.now) result }
{
    let other = group.other;
    if other == hole.face {
        return best;
    }
    if plates[other] == 1 {
        return best;
    }
    if is_no_nearer(file, words, reals, edges, hole, group, best) {
        return best;
    }
    let at = edges.at;
    let centre = hole.centre;
    let gap = Gap {
        gap: between_distance(file, words, reals, at, group, centre) - hole.radius,
        other,
    };
    nearer(best, gap)
}

// With the edges of a flat face around the hole.
fn with_plate(
    file: &[u8],
    words: &[u32],
    reals: &[f64],
    plates: &[u32],
    edges: Edges,
    hole: Round,
    plate: usize,
    best: Option<Gap>,
) -> Option<Gap>
    requires edges_ordered_1 { EdgesOrdered file.now edges.at words.now reals.now }
    requires edges_ordered_2 { tours.Counted (part_of file.now) edges }
    requires edges_ordered_3 { plate < faces_of (part_of file.now) }
    requires plates_1 { Plates (part_of file.now) hole.face plates.now }
    requires plates_2 { NearestThere (part_of file.now) best }
    ensures fact_1 { result ≡ nearest_from best (gaps_beside (part_of file.now) hole plate) }
    ensures fact_2 { NearestThere (part_of file.now) result }
{
    let at = edges.at;
    let places = face_places(file, words, reals, edges, plate);
    let end = places.end;
    let mut nearest = best;
    let mut i = places.start;
    // A while: the next start is where the edges beside one neighbour end.
    while i < end {
        let rest = Places { start: i, end };
        let group = next_group(file, words, reals, at, plate, rest);
        nearest = with_group(file, words, reals, plates, edges, hole, group, nearest);
        i = group.end;
    }
    nearest
}

// With the edges of a neighbour of the hole, where it is flat.
fn with_neighbour(
    file: &[u8],
    words: &[u32],
    reals: &[f64],
    plates: &[u32],
    edges: Edges,
    hole: Round,
    g: usize,
    best: Option<Gap>,
) -> Option<Gap>
    requires edges_ordered_1 { EdgesOrdered file.now edges.at words.now reals.now }
    requires edges_ordered_2 { tours.Counted (part_of file.now) edges }
    requires edges_ordered_3 { g < faces_of (part_of file.now) }
    requires plates_1 { Plates (part_of file.now) hole.face plates.now }
    requires plates_2 { NearestThere (part_of file.now) best }
    ensures fact_1 { result ≡ nearest_from best (gaps_from (part_of file.now) hole g (edges_between (part_of file.now) hole.face g)) }
    ensures fact_2 { NearestThere (part_of file.now) result }
{
    let at = edges.at;
    if is_flat(file, words, reals, at, g) {
        return with_plate(file, words, reals, plates, edges, hole, g, best);
    }
    best
}

// What is nearest to a hole whose flat faces are marked.
pub fn nearest_of(
    file: &[u8],
    words: &[u32],
    reals: &[f64],
    plates: &[u32],
    edges: Edges,
    hole: Round,
) -> Option<Gap>
    requires edges_ordered_1 { EdgesOrdered file.now edges.at words.now reals.now }
    requires edges_ordered_2 { tours.Counted (part_of file.now) edges }
    requires edges_ordered_3 { hole.face < faces_of (part_of file.now) }
    requires plates { Plates (part_of file.now) hole.face plates.now }
    ensures fact_1 { result ≡ nearest_of (part_of file.now) hole }
    ensures fact_2 { NearestThere (part_of file.now) result }
{
    let at = edges.at;
    let h = hole.face;
    let places = face_places(file, words, reals, edges, h);
    let end = places.end;
    let mut nearest = None;
    let mut i = places.start;
    // A while: the next start is where the edges beside one neighbour end.
    while i < end {
        let rest = Places { start: i, end };
        let group = next_group(file, words, reals, at, h, rest);
        let g = group.other;
        nearest = with_neighbour(file, words, reals, plates, edges, hole, g, nearest);
        i = group.end;
    }
    nearest
}
