// The thickness readings by their pairs of faces, pairs by rising ids: they are sorted once, and the groups are walked.
#![tactic(auto)]

ghost use Rattle.std.specs.Prelude.{◌≡◌, ◌≤◌, ◌<◌, length, get_or};
ghost use Rattle.list_laws.specs.Region.{part};
ghost use Rattle.list_groups.specs.Work.{KeysPut};
ghost use Rattle.file_part.specs.Part.{part_of};
ghost use Rattle.solid_faces.specs.Faces.{faces_of};
ghost use Rattle.scratch.specs.Standing.{Standing};
ghost use Rattle.solid_pairs.specs.solid_ranks.specs.Kept.{Ranked};
ghost use Rattle.solid_pairs.specs.Work.{PairIs, item_key};
ghost use Rattle.wall_samples.specs.Samples.{readings_of};
ghost use Rattle.wall_samples.specs.Stored.{reading, Readings};
ghost use Rattle.wall_pairs.specs.Walls.{face_from, face_hit, least_of};
ghost use Rattle.wall_pairs.specs.Work.{Counted, reading_order, WallsOrdered, WallsPut, NextWallIs, FacesReady};

use list_cells::cell;
use list_groups::{group_end, sort_items};
use num_real::select::min;
use scratch::regions::Regions;
use solid_pairs::{FacePair, pair_of};

// How many faces and readings a part has.
#[derive(Clone, Copy)]
pub struct Counts {
    pub faces: usize,
    pub readings: usize,
}

// Two faces with readings between them, the lower id first, and the place in the sorted readings where the next two start.
#[derive(Clone, Copy)]
pub struct NextWall {
    pub first: usize,
    pub second: usize,
    pub end: usize,
}

// The pair of faces of reading s.
fn reading_pair(file: &[u8], words: &[u32], at: Regions, n: usize, s: usize) -> FacePair
    requires fact_1 { FacesReady file.now at words.now }
    requires fact_2 { n ≡ faces_of (part_of file.now) }
    requires fact_3 { s < length (readings_of (part_of file.now)) }
    ensures { PairIs (part_of file.now) (face_from (part_of file.now) s) (face_hit (part_of file.now) s) result }
{
    let from = cell(words, at.faces + cell(words, at.readings + s));
    let hit = cell(words, at.faces + cell(words, at.hits + s));
    pair_of(file, words, at, n, from, hit)
}

// The key of each reading.
fn put_keys(file: &[u8], words: &[u32], reals: &mut [f64], at: Regions, counts: Counts)
    requires fact_1 { FacesReady file.now at words.now }
    requires fact_2 { at.reals ≤ length reals.old }
    requires fact_3 { Counted (part_of file.now) counts }
    ensures { KeysPut (item_key (part_of file.now) (face_from (part_of file.now)) (face_hit (part_of file.now))) at.falling counts.readings reals.old reals.new }
{
    for s in 0..counts.readings {
        let pair = reading_pair(file, words, at, counts.faces, s);
        reals[at.falling + s] = pair.key;
    }
}

// Sorts the readings of a part by their pairs of faces, for `next_wall`.
pub fn order_walls(file: &[u8], words: &mut [u32], reals: &mut [f64], at: Regions, counts: Counts)
    requires standing_1 { Standing file.now at words.old reals.old }
    requires standing_2 { Readings (part_of file.now) at words.old reals.old }
    requires ranked_1 { Ranked (part_of file.now) at words.old }
    requires ranked_2 { Counted (part_of file.now) counts }
    ensures { WallsPut file.now at words.old words.new reals.old reals.new }
{
    put_keys(file, words, reals, at, counts);
    sort_items(
        &reals[at.falling..at.thickness],
        &mut words[at.order..at.kinds],
        counts.readings,
    );
}

// The two faces whose readings start at place i of the order.
pub fn next_wall(
    file: &[u8],
    words: &[u32],
    reals: &[f64],
    at: Regions,
    counts: Counts,
    i: usize,
) -> NextWall
    requires fact_1 { WallsOrdered file.now at words.now reals.now }
    requires fact_2 { Counted (part_of file.now) counts }
    requires fact_3 { i < counts.readings }
    ensures { NextWallIs (part_of file.now) at words.now reals.now i result }
{
    let end = group_end(
        &reals[at.falling..at.thickness],
        &words[at.order..at.kinds],
        counts.readings,
        i,
    );
    let pair = reading_pair(file, words, at, counts.faces, cell(words, at.order + i));
    NextWall {
        first: pair.first,
        second: pair.second,
        end,
    }
}

// The thickness of the reading at place j of the order.
pub fn thickness_at(file: &[u8], words: &[u32], reals: &[f64], at: Regions, j: usize) -> f64
    requires fact_1 { WallsOrdered file.now at words.now reals.now }
    requires fact_2 { j < length (readings_of (part_of file.now)) }
    ensures { result ≡ (reading (readings_of (part_of file.now)) (get_or (reading_order at words.now) j 0)).thickness }
{
    reals[at.thickness + cell(words, at.order + j)]
}

// The least thickness of the readings from place i to before place e of the order; infinity where there is none.
pub fn least(file: &[u8], words: &[u32], reals: &[f64], at: Regions, i: usize, e: usize) -> f64
    requires fact_1 { WallsOrdered file.now at words.now reals.now }
    requires fact_2 { i ≤ e }
    requires fact_3 { e ≤ length (readings_of (part_of file.now)) }
    ensures { result ≡ least_of (part_of file.now) (part i e (reading_order at words.now)) }
{
    let infinity = f64::from_bits(0x7ff0_0000_0000_0000);
    let mut x = infinity;
    for j in i..e {
        x = min(x, thickness_at(file, words, reals, at, j));
    }
    x
}
