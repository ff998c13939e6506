// What the rules and the messages take from the job.
ghost use Rattle.std.specs.Prelude.{◌≡◌};
ghost use Rattle.num_text.specs.Text.{Adds};
ghost use Rattle.file_part.specs.Layout.{vertex_count_of, polygon_count_of, entry_at};
ghost use Rattle.file_part.specs.Part.{part_of};
ghost use Rattle.solid_faces.specs.Faces.{Checked};
ghost use Rattle.fault_text.specs.Job.{min_wall_of, name_or};

use file_job::{Job, read_job};
use num_text::text::Text;

// Thinnest wall worth machining when no material is assigned (mm).
const DEFAULT_MIN_WALL: f64 = 0.8;

// Where the job stands: it and the trailer end the file.
pub fn job_place(file: &[u8]) -> usize
    requires { Checked file.now }
    ensures { result ≡ entry_at (vertex_count_of file.now) (polygon_count_of file.now) }
{
    file.len() - 144
}

// The job of an accepted file.
pub fn job_of(file: &[u8]) -> Job
    requires { Checked file.now }
    ensures { result ≡ (part_of file.now).job }
{
    read_job(file, job_place(file))
}

// The thinnest wall: the material's, where it has one above 0.
pub fn min_wall(file: &[u8]) -> f64
    requires { Checked file.now }
    ensures { result ≡ min_wall_of (part_of file.now) }
{
    let job = job_of(file);
    if job.has_material && job.material.min_wall > 0.0 {
        return job.material.min_wall;
    }
    DEFAULT_MIN_WALL
}

// The material's name, or what is said where there is no material.
pub(crate) fn put_name(text: &mut Text<'_>, file: &[u8], other: &[u8])
    requires { Checked file.now }
    ensures { Adds text.old (name_or (part_of file.now) other.now) text.new }
{
    let place = job_place(file);
    let job = read_job(file, place);
    if job.has_material {
        let start = place + 88;
        let end = start + job.material.name_length as usize;
        text.put_bytes(&file[start..end]);
        return;
    }
    text.put_bytes(other);
}
