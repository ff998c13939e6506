// Refusals 8 and 9 of a part file, after those of the crate below.
ghost use Rattle.std.specs.Prelude.{◌≡◌};
ghost use Rattle.solid_polygon.specs.file_part.specs.Part.{part_of};
ghost use Rattle.file_ok.specs.Work.{Readable};
ghost use Rattle.solid_faces.specs.Faces.{some_flat, body_verdict};

use crate::faces::few_faces;
use refusal::Refusal;
use solid_polygon::file_part::read::{
    entry_at, first_vertex, polygon_count, run_length, vertex_count,
};
use solid_polygon::polygon::is_flat;

// Whether `Polygon::new` would refuse some polygon.
fn any_flat(file: &[u8]) -> bool
    requires { Readable file.now }
    ensures { result ≡ some_flat (part_of file.now) }
{
    let vertices = vertex_count(file);
    let polygons = polygon_count(file);
    for p in 0..polygons {
        let at = entry_at(vertices, p);
        if is_flat(file, first_vertex(file, at), run_length(file, at)) {
            return true;
        }
    }
    false
}

// The lowest refusal from 1 to 9 that a file meets.
pub fn judge(file: &[u8]) -> Result<(), Refusal>
    ensures { result ≡ body_verdict file.now }
{
    file_ok::verdict::judge(file)?;
    if any_flat(file) {
        return Err(Refusal::FlatPolygon);
    }
    if !few_faces(file) {
        return Err(Refusal::TooManyFaces);
    }
    Ok(())
}
