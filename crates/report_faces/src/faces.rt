// The faces of a line.
ghost use Rattle.std.specs.Prelude.{◌≡◌, ◌*◌, ◌<◌, length};
ghost use Rattle.num_text.specs.Text.{Adds};
ghost use Rattle.file_part.specs.Part.{part_of};
ghost use Rattle.fault_lines.specs.Line.{alike};
ghost use Rattle.fault_lines.specs.Lines.{line_faces};
ghost use Rattle.fault_merge.specs.Rows.{heading_at};
ghost use Rattle.fault_merge.specs.Work.{faults_to};
ghost use Rattle.fault_merge.specs.Merged.{lead_in};
ghost use Rattle.report_faces.specs.Text.{faces_text};
ghost use Rattle.report_faces.specs.Work.{Ready};

use crate::ids::{put_marked, put_own};
use crate::marks::{Listing, mark_line};
use crate::named::{is_many, named_at};
use num_text::text::Text;

// The faces of the line that fault i begins.
pub fn put_faces(
    text: &mut Text<'_>,
    marks: &mut [u32],
    file: &[u8],
    words: &[u32],
    given: Listing,
    work: &[u32],
    cells: &[u32],
    numbers: &[f64],
    i: usize,
)
    requires ready_1 { Ready file.now words.now given work.now cells.now numbers.now }
    requires ready_2 { length marks.old ≡ 1024 }
    requires i_lt_faults_1 { i < given.faults }
    requires i_lt_faults_2 { lead_in (part_of file.now) cells.now numbers.now i ≡ i }
    ensures fact_1 { Adds text.old (faces_text (line_faces (alike (faults_to (part_of file.now) cells.now numbers.now given.faults) (heading_at (part_of file.now) cells.now numbers.now i)))) text.new }
    ensures fact_2 { length marks.new ≡ 1024 }
{
    let regions = given.at;
    let faces = regions.faces;
    let end = regions.readings;
    let named = named_at(cells, numbers, i);
    let lone = work[4 * i + 3] == 1;
    if lone && !is_many(named) {
        put_own(text, file, &words[faces..end], named);
        return;
    }
    mark_line(marks, words, given, work, cells, numbers, i);
    put_marked(text, file, &words[faces..end], marks, given.faces);
}
