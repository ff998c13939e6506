// The edges of a part as items, each under both its faces, sorted once.
ghost use Rattle.std.specs.Prelude.{◌≡◌, true, ◌+◌, ◌*◌, ◌≤◌, ◌<◌, length};
ghost use Rattle.list_groups.specs.Groups.{passing};
ghost use Rattle.list_groups.specs.Work.{WholeIs};
ghost use Rattle.file_part.specs.Part.{part_of};
ghost use Rattle.solid_faces.specs.Faces.{faces_of};
ghost use Rattle.solid_edges.specs.Edges.{is_edge_of};
ghost use Rattle.scratch.specs.Standing.{Standing};
ghost use Rattle.solid_ranks.specs.Kept.{Ranked};
ghost use Rattle.solid_tours.specs.Work.Kept.{EdgesPut};
ghost use Rattle.solid_tours.specs.Work.{EdgePut, AllPut, SortedPut};

use crate::boxes::put_boxes;
use crate::pack::pack_edges;
use list_cells::cell;
use list_groups::sort_items;
use scratch::regions::Regions;
use solid_edges::edge::edge_at;

// The key of the ranks a and b among n faces. Keys rise as a does, and as b does where a is the same.
// As pair_key of solid_pairs: neither crate stands on the other, and a third for one line is no plainer.
pub fn edge_key(a: usize, b: usize, n: usize) -> f64
    requires fact_1 { a ≤ n }
    requires fact_2 { b ≤ n }
    requires fact_3 { n ≤ 1024 }
    ensures { WholeIs (a * n + b) result }
{
    (a * n + b) as f64
}

// The turn of a side: the number of faces, the side, and how many items come before it.
#[derive(Clone, Copy)]
struct Turn {
    faces: usize,
    side: usize,
    before: usize,
}

// Keeps a side twice, under its own face and under the face beyond, where it is an edge. How many items there are then.
fn put_edge(file: &[u8], words: &mut [u32], reals: &mut [f64], at: Regions, turn: Turn) -> usize
    requires standing_1 { Standing file.now at words.old reals.old }
    requires standing_2 { Ranked (part_of file.now) at words.old }
    requires standing_3 { turn.faces ≡ faces_of (part_of file.now) }
    requires side_lt_vertices_1 { turn.side < at.vertices }
    requires side_lt_vertices_2 { turn.before ≡ 2 * length (passing (is_edge_of (part_of file.now)) turn.side) }
    requires side_lt_vertices_3 { at.segments ≡ true }
    ensures { EdgePut (part_of file.now) at turn.side turn.before words.old words.new reals.old reals.new result }
{
    let s = turn.side;
    let m = turn.before;
    let n = turn.faces;
    let sides = at.sides;
    let items = at.items;
    let faces = at.faces;
    let end = at.readings;
    let Some(e) = edge_at(file, &words[sides..items], &words[faces..end], s) else {
        return m;
    };
    let ranks = at.ranks;
    let keys = at.directions;
    let near = cell(words, ranks + e.near);
    let beyond = cell(words, ranks + e.beyond);
    let near_key = edge_key(near, beyond, n);
    let far_key = edge_key(beyond, near, n);
    words[items + m] = s as u32;
    words[items + (m + 1)] = s as u32;
    reals[keys + m] = near_key;
    reals[keys + (m + 1)] = far_key;
    m + 2
}

// All edges, in the order of the shared segments. How many items there are.
fn put_edges(file: &[u8], words: &mut [u32], reals: &mut [f64], at: Regions, n: usize) -> usize
    requires fact_1 { Standing file.now at words.old reals.old }
    requires fact_2 { Ranked (part_of file.now) at words.old }
    requires fact_3 { n ≡ faces_of (part_of file.now) }
    requires fact_4 { at.segments ≡ true }
    ensures { AllPut file.now at words.old words.new reals.old reals.new result }
{
    let mut m: usize = 0;
    for s in 0..at.vertices {
        let turn = Turn {
            faces: n,
            side: s,
            before: m,
        };
        m = put_edge(file, words, reals, at, turn);
    }
    m
}

// Sorts them by face and by the face that they lead to. How many items there are.
fn sort_edges(file: &[u8], words: &mut [u32], reals: &mut [f64], at: Regions, n: usize) -> usize
    requires fact_1 { Standing file.now at words.old reals.old }
    requires fact_2 { Ranked (part_of file.now) at words.old }
    requires fact_3 { n ≡ faces_of (part_of file.now) }
    requires fact_4 { at.segments ≡ true }
    ensures { SortedPut file.now at words.old words.new reals.old reals.new result }
{
    let m = put_edges(file, words, reals, at, n);
    let sorted = at.sorted;
    let end = at.chain;
    let keys = at.directions;
    let keys_end = at.free;
    sort_items(&reals[keys..keys_end], &mut words[sorted..end], m);
    m
}

// Sorts the edges of a part of n faces by face and by the face that they lead to, each under both its faces, packs them in that order and
// puts boxes around them. How many items there are.
pub fn order_edges(
    file: &[u8],
    words: &mut [u32],
    reals: &mut [f64],
    at: Regions,
    n: usize,
) -> usize
    requires fact_1 { Standing file.now at words.old reals.old }
    requires fact_2 { Ranked (part_of file.now) at words.old }
    requires fact_3 { n ≡ faces_of (part_of file.now) }
    requires fact_4 { at.segments ≡ true }
    ensures { EdgesPut file.now at words.old words.new reals.old reals.new result }
{
    let m = sort_edges(file, words, reals, at, n);
    pack_edges(file, &words[..], reals, at, m);
    put_boxes(file, &words[..], reals, at, m);
    m
}
