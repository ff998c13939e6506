// A tour of the edges of one face, where they are sorted: its places, its neighbours one after the other, and distances from its edges.
ghost use Rattle.std.specs.Prelude.{◌≡◌, ◌+◌, ◌*◌, ◌/◌, ◌≤◌, ◌<◌, pos, length, get_or};
ghost use Rattle.std.specs.Float.{binary64};
ghost use Rattle.std.specs.Float.Ieee.{of_int};
ghost use Rattle.num_float.specs.Order.{lesser};
ghost use Rattle.file_part.specs.Part.{part_of};
ghost use Rattle.solid_faces.specs.Faces.{faces_of};
ghost use Rattle.solid_distance.specs.Kept.{square_to_of};
ghost use Rattle.solid_distance.specs.Work.{segment_at_of};
ghost use Rattle.solid_edges.specs.Distance.{edge_distance, between_distance};
ghost use Rattle.solid_tours.specs.Tours.{edges_between};
ghost use Rattle.solid_tours.specs.Work.{least_square};
ghost use Rattle.solid_tours.specs.Work.Kept.{item_count, box_count_of, item_key, key_start, edge_order, sides_at, EdgesSorted, EdgesOrdered, Counted, FacePlaces, RestPlaces, GroupPlaces, NextGroup, ItemAt};

use crate::boxes::{box_count, is_spared, run_end};
use crate::order::edge_key;
use list_cells::cell;
use list_groups::group_end;
use math::Vec3;
use scratch::regions::Regions;
use solid_distance::kept::segment_at;
use solid_edges::edge::leads_to;

// The sorted edges of a part: where they stand, and how many faces and items there are.
#[derive(Clone, Copy)]
pub struct Edges {
    pub at: Regions,
    pub faces: usize,
    pub items: usize,
}

// Places of the order, from `start` to before `end`.
#[derive(Clone, Copy)]
pub struct Places {
    pub start: usize,
    pub end: usize,
}

// The edges between two faces: their places under the first.
#[derive(Clone, Copy)]
pub struct Group {
    pub face: usize,
    pub other: usize,
    pub start: usize,
    pub end: usize,
}

// The edge at place j.
pub fn item_at(file: &[u8], words: &[u32], reals: &[f64], at: Regions, j: usize) -> usize
    requires fact_1 { EdgesSorted file.now at words.now reals.now }
    requires fact_2 { j < item_count (part_of file.now) }
    ensures { ItemAt (part_of file.now) at words.now j result }
{
    let sorted = at.sorted;
    let items = at.items;
    cell(words, items + cell(words, sorted + j))
}

// The key of the item at place j.
fn key_at(file: &[u8], words: &[u32], reals: &[f64], at: Regions, j: usize) -> f64
    requires fact_1 { EdgesOrdered file.now at words.now reals.now }
    requires fact_2 { j < item_count (part_of file.now) }
    ensures { result ≡ of_int binary64 (pos (item_key (part_of file.now) (get_or (edge_order at words.now) j 0))) }
{
    let sorted = at.sorted;
    let keys = at.directions;
    reals[keys + cell(words, sorted + j)]
}

// Where the items of the faces of rank r and above begin, by halving.
fn rank_start(file: &[u8], words: &[u32], reals: &[f64], edges: Edges, r: usize) -> usize
    requires fact_1 { EdgesOrdered file.now edges.at words.now reals.now }
    requires fact_2 { Counted (part_of file.now) edges }
    requires fact_3 { r ≤ edges.faces }
    ensures { result ≡ key_start (part_of file.now) (r * faces_of (part_of file.now)) }
{
    let at = edges.at;
    let key = edge_key(r, 0, edges.faces);
    let mut low: usize = 0;
    let mut high = edges.items;
    // A while: each turn halves what is left.
    while low < high {
        let middle = low + (high - low) / 2;
        if key_at(file, words, reals, at, middle) < key {
            low = middle + 1;
            continue;
        }
        high = middle;
    }
    low
}

// The places of the edges of face f.
pub fn face_places(file: &[u8], words: &[u32], reals: &[f64], edges: Edges, f: usize) -> Places
    requires fact_1 { EdgesOrdered file.now edges.at words.now reals.now }
    requires fact_2 { Counted (part_of file.now) edges }
    requires fact_3 { f < edges.faces }
    ensures { FacePlaces (part_of file.now) edges.at words.now f result }
{
    let at = edges.at;
    let r = cell(words, at.ranks + f);
    Places {
        start: rank_start(file, words, reals, edges, r),
        end: rank_start(file, words, reals, edges, r + 1),
    }
}

// The lesser of the least squared distance of point p yet and that from the segment that is kept from `place` on.
fn nearer(reals: &[f64], place: usize, p: Vec3, least: f64) -> f64
    requires { place + 7 ≤ length reals.now }
    ensures { result ≡ lesser least (square_to_of p (segment_at_of reals.now place)) }
{
    let square = segment_at(reals, place).square_to(p);
    if square < least {
        return square;
    }
    least
}

// The least of `least` and the squared distances of point p from the edges at these places.
fn least_square(
    file: &[u8],
    words: &[u32],
    reals: &[f64],
    at: Regions,
    places: Places,
    p: Vec3,
    least: f64,
) -> f64
    requires fact_1 { EdgesOrdered file.now at words.now reals.now }
    requires fact_2 { places.start ≤ places.end }
    requires fact_3 { places.end ≤ item_count (part_of file.now) }
    ensures { result ≡ least_square (part_of file.now) p least (sides_at (part_of file.now) at words.now places.start places.end) }
{
    let mut best = least;
    for j in places.start..places.end {
        best = nearer(reals, at.free + 7 * j, p, best);
    }
    best
}

// The same at places of one box of `count`, which spares them all where it is no nearer.
fn run_square(
    file: &[u8],
    words: &[u32],
    reals: &[f64],
    edges: Edges,
    count: usize,
    places: Places,
    p: Vec3,
    least: f64,
) -> f64
    requires edges_ordered_1 { EdgesOrdered file.now edges.at words.now reals.now }
    requires edges_ordered_2 { Counted (part_of file.now) edges }
    requires edges_ordered_3 { count ≡ box_count_of (item_count (part_of file.now)) edges.at.vertices }
    requires start_le_end_1 { places.start ≤ places.end }
    requires start_le_end_2 { places.end ≤ item_count (part_of file.now) }
    requires start_le_end_3 { places.end ≤ places.start / 16 * 16 + 16 }
    ensures { result ≡ least_square (part_of file.now) p least (sides_at (part_of file.now) edges.at words.now places.start places.end) }
{
    let at = edges.at;
    let b = places.start / 16;
    let place = at.free + 7 * edges.items + 6 * b;
    if is_spared(reals, count, b, place, p, least) {
        return least;
    }
    least_square(file, words, reals, at, places, p, least)
}

// The same at any places, box by box.
fn boxed_square(
    file: &[u8],
    words: &[u32],
    reals: &[f64],
    edges: Edges,
    places: Places,
    p: Vec3,
    least: f64,
) -> f64
    requires edges_ordered_1 { EdgesOrdered file.now edges.at words.now reals.now }
    requires edges_ordered_2 { Counted (part_of file.now) edges }
    requires start_le_end_1 { places.start ≤ places.end }
    requires start_le_end_2 { places.end ≤ item_count (part_of file.now) }
    ensures { result ≡ least_square (part_of file.now) p least (sides_at (part_of file.now) edges.at words.now places.start places.end) }
{
    let end = places.end;
    let count = box_count(edges.items, edges.at.vertices);
    let mut best = least;
    let mut j = places.start;
    // A while: each turn goes to the end of a box.
    while j < end {
        let stop = run_end(j / 16 * 16, end);
        let run = Places {
            start: j,
            end: stop,
        };
        best = run_square(file, words, reals, edges, count, run, p, best);
        j = stop;
    }
    best
}

// The least distance of point p from the edges of face f; infinity where it has none. One root of the least square gives the same f64.
// An f64, not an Option: the definition is that number.
pub fn edge_distance(
    file: &[u8],
    words: &[u32],
    reals: &[f64],
    edges: Edges,
    f: usize,
    p: Vec3,
) -> f64
    requires fact_1 { EdgesOrdered file.now edges.at words.now reals.now }
    requires fact_2 { Counted (part_of file.now) edges }
    requires fact_3 { f < edges.faces }
    ensures { result ≡ edge_distance (part_of file.now) f p }
{
    let places = face_places(file, words, reals, edges, f);
    let least = f64::INFINITY;
    num_root::sqrt(boxed_square(file, words, reals, edges, places, p, least))
}

// The least of `least` and the squared distances of point p from the edges between two faces.
pub fn between_square(
    file: &[u8],
    words: &[u32],
    reals: &[f64],
    edges: Edges,
    group: Group,
    p: Vec3,
    least: f64,
) -> f64
    requires fact_1 { EdgesOrdered file.now edges.at words.now reals.now }
    requires fact_2 { Counted (part_of file.now) edges }
    requires fact_3 { GroupPlaces (part_of file.now) edges.at words.now group }
    ensures { result ≡ least_square (part_of file.now) p least (edges_between (part_of file.now) group.face group.other) }
{
    let places = Places {
        start: group.start,
        end: group.end,
    };
    boxed_square(file, words, reals, edges, places, p, least)
}

// The least distance of point p from the edges between two faces.
pub fn between_distance(
    file: &[u8],
    words: &[u32],
    reals: &[f64],
    at: Regions,
    group: Group,
    p: Vec3,
) -> f64
    requires fact_1 { EdgesOrdered file.now at words.now reals.now }
    requires fact_2 { GroupPlaces (part_of file.now) at words.now group }
    ensures { result ≡ between_distance (part_of file.now) group.face group.other p }
{
    let places = Places {
        start: group.start,
        end: group.end,
    };
    let least = f64::INFINITY;
    num_root::sqrt(least_square(file, words, reals, at, places, p, least))
}

// The next neighbour of face f, by rising ids, and the edges with it, from the first of the places that are left of the face.
pub fn next_group(
    file: &[u8],
    words: &[u32],
    reals: &[f64],
    at: Regions,
    f: usize,
    rest: Places,
) -> Group
    requires edges_ordered_1 { EdgesOrdered file.now at words.now reals.now }
    requires edges_ordered_2 { f < faces_of (part_of file.now) }
    requires rest_places_1 { RestPlaces (part_of file.now) f rest }
    requires rest_places_2 { rest.start < rest.end }
    ensures { NextGroup (part_of file.now) at words.now f rest result }
{
    let sides = at.sides;
    let items = at.items;
    let faces = at.faces;
    let faces_end = at.readings;
    let sorted = at.sorted;
    let sorted_end = at.chain;
    let keys = at.directions;
    let keys_end = at.free;
    let start = rest.start;
    let s = item_at(file, words, reals, at, start);
    let other = leads_to(file, &words[sides..items], &words[faces..faces_end], f, s).unwrap();
    let end = group_end(
        &reals[keys..keys_end],
        &words[sorted..sorted_end],
        rest.end,
        start,
    );
    Group {
        face: f,
        other,
        start,
        end,
    }
}
