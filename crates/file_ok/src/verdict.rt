// Refusals 1 to 7 of a part file, in this order. 8 and 9 are found from the planes and the faces, by the crate above.
ghost use Rattle.std.specs.Prelude.{◌≡◌, ◌≤◌, length};
ghost use Rattle.file_part.specs.Layout.{size_of};
ghost use Rattle.file_ok.specs.Verdict.{content_verdict, verdict_of};

use crate::rules::{polygons_are_good, vertices_are_good};
use file_job_ok::rules::job_is_good;
use file_part::file_field::read::u32_at;
use file_part::read::{entry_at, polygon_count, vertex_count};
use refusal::Refusal;

// The job, then the vertices, then the polygons.
fn content_verdict(file: &[u8], vertices: usize, polygons: usize) -> Result<(), Refusal>
    requires fact_1 { size_of vertices polygons ≤ length file.now }
    requires fact_2 { vertices ≤ 16384 }
    requires fact_3 { polygons ≤ 4096 }
    ensures { result ≡ content_verdict file.now vertices polygons }
{
    if !job_is_good(file, entry_at(vertices, polygons)) {
        return Err(Refusal::BadJob);
    }
    if !vertices_are_good(file, vertices) {
        return Err(Refusal::BadVertex);
    }
    if !polygons_are_good(file, vertices, polygons) {
        return Err(Refusal::BadPolygon);
    }
    Ok(())
}

// The lowest refusal from 1 to 7 that a file meets.
pub fn judge(file: &[u8]) -> Result<(), Refusal>
    ensures { result ≡ verdict_of file.now }
{
    let n = file.len();
    if n < 144 {
        return Err(Refusal::TooShort);
    }
    if u32_at(file, n - 16) != 1 {
        return Err(Refusal::WrongEdition);
    }
    let vertices = vertex_count(file);
    let polygons = polygon_count(file);
    if (16384 < vertices) | (4096 < polygons) {
        return Err(Refusal::TooLarge);
    }
    let back = u32_at(file, n - 4) as usize;
    if (n != entry_at(vertices, polygons) + 144) | (back != 80 * polygons + 144) {
        return Err(Refusal::WrongLength);
    }
    content_verdict(file, vertices, polygons)
}
