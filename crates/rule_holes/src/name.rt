// Whether the material's name has a word in it.
ghost use Rattle.std.specs.Prelude.{◌≡◌, ◌≤◌, length};
ghost use Rattle.file_part.specs.Part.{part_of};
ghost use Rattle.solid_faces.specs.Faces.{Checked};
ghost use Rattle.rule_holes.specs.Name.{contains, is_named};
ghost use Rattle.rule_holes.specs.Work.{starts_at};

use fault_text::job::{job_of, job_place};

// Whether the text from `at` on begins with a word.
fn starts_with(text: &[u8], at: usize, word: &[u8]) -> bool
    requires { at ≤ length text.now }
    ensures { result ≡ starts_at word.now text.now at }
{
    text[at..].starts_with(word)
}

// Whether the text has a word in it.
fn has_word(text: &[u8], word: &[u8]) -> bool
    ensures { result ≡ contains word.now text.now }
{
    let n = text.len();
    for at in 0..n {
        if starts_with(text, at, word) {
            return true;
        }
    }
    starts_with(text, n, word)
}

// Whether there is a material with the word in its name.
pub fn is_named(file: &[u8], word: &[u8]) -> bool
    requires { Checked file.now }
    ensures { result ≡ is_named (part_of file.now) word.now }
{
    let job = job_of(file);
    if job.has_material {
        let start = job_place(file) + 88;
        let end = start + job.material.name_length as usize;
        return has_word(&file[start..end], word);
    }
    false
}
