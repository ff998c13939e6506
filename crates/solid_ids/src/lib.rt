// The ids of faces, and their order: by feature, then by index.
#![tactic(auto)]

ghost use Rattle.std.specs.Prelude.{◌≡◌, ◌<◌};
ghost use Rattle.file_part.specs.Part.{part_of};
ghost use Rattle.solid_faces.specs.Faces.{faces_of};
ghost use Rattle.solid_ids.specs.Ids.{id_of, face_before};
ghost use Rattle.solid_ids.specs.Work.{KnownFaces};

use file_part::read::{FaceId, entry_at, face_id, polygon_count, vertex_count};
use list_cells::cell;

// The id of face g, from the entry of its first polygon.
pub fn id_of(file: &[u8], faces: &[u32], g: usize) -> FaceId
    requires fact_1 { KnownFaces file.now faces.now }
    requires fact_2 { g < faces_of (part_of file.now) }
    ensures { result ≡ id_of (part_of file.now) g }
{
    let vertices = vertex_count(file);
    let first = cell(faces, polygon_count(file) + g);
    face_id(file, entry_at(vertices, first))
}

// Whether face g has a lower id than face h.
#[tactic(auto, unfolding(crate::specs::Ids::face_before, crate::specs::Ids::id_before))]
pub fn face_before(file: &[u8], faces: &[u32], g: usize, h: usize) -> bool
    requires fact_1 { KnownFaces file.now faces.now }
    requires fact_2 { g < faces_of (part_of file.now) }
    requires fact_3 { h < faces_of (part_of file.now) }
    ensures { result ≡ face_before (part_of file.now) g h }
{
    id_of(file, faces, g) < id_of(file, faces, h)
}
