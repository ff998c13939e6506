// Whether a job is within the rules (refusal 5). Every field is looked at, by functions of a sentence each.
ghost use Rattle.std.specs.Prelude.{◌≡◌, ◌+◌, ◌≤◌, length};
ghost use Rattle.file_job_ok.specs.Rules.{flagged_real, flagged_word, head_good, settings_good, material_good, name_byte_good, name_good, job_good};

use file_job::file_field::read::{f64_at, u32_at, u64_at, vec_at};
use file_job::file_field::test::{in_range, is_direction};
use file_job::{BEND_RATIO, MATERIAL, NOZZLE, OVERHANG, has};

// A field that counts only where its flag is set, and is zero bits otherwise.
fn flagged_real(flag: bool, file: &[u8], at: usize, lo: f64, hi: f64) -> bool
    requires { at + 8 ≤ length file.now }
    ensures { result ≡ flagged_real flag file.now at lo hi }
{
    if flag {
        return in_range(lo, f64_at(file, at), hi);
    }
    u64_at(file, at) == 0
}

fn flagged_word(flag: bool, file: &[u8], at: usize, lo: u32, hi: u32) -> bool
    requires { at + 4 ≤ length file.now }
    ensures { result ≡ flagged_word flag file.now at lo hi }
{
    let n = u32_at(file, at);
    if flag {
        return (lo <= n) & (n <= hi);
    }
    n == 0
}

fn head_is_good(file: &[u8], at: usize) -> bool
    requires { at + 128 ≤ length file.now }
    ensures { result ≡ head_good file.now at }
{
    let process = u32_at(file, at);
    let flags = u32_at(file, at + 4);
    (process <= 4) & (flags <= 15) & (has(flags, MATERIAL) | !has(flags, BEND_RATIO))
}

fn settings_are_good(file: &[u8], at: usize) -> bool
    requires { at + 128 ≤ length file.now }
    ensures { result ≡ settings_good file.now at }
{
    let flags = u32_at(file, at + 4);
    is_direction(vec_at(file, at + 8))
        & in_range(0.001, f64_at(file, at + 32), 1000.0)
        & flagged_real(has(flags, NOZZLE), file, at + 40, 0.0, 1000.0)
        & in_range(0.0, f64_at(file, at + 48), 10000.0)
        & in_range(0.0, f64_at(file, at + 56), 10000.0)
        & flagged_word(has(flags, OVERHANG), file, at + 64, 0, 900)
}

fn material_is_good(file: &[u8], at: usize) -> bool
    requires { at + 128 ≤ length file.now }
    ensures { result ≡ material_good file.now at }
{
    let flags = u32_at(file, at + 4);
    flagged_word(has(flags, MATERIAL), file, at + 68, 0, 1)
        & flagged_word(has(flags, BEND_RATIO), file, at + 72, 0, 100000)
        & flagged_word(has(flags, MATERIAL), file, at + 76, 1, 40)
        & flagged_real(has(flags, MATERIAL), file, at + 80, -10000.0, 10000.0)
}

// Byte k of the name's 40.
fn name_byte_is_good(k: usize, length: u32, b: u8) -> bool
    ensures { result ≡ name_byte_good k length b }
{
    if k < length as usize {
        return (0x20 <= b) & (b <= 0x7e);
    }
    b == 0
}

fn name_is_good(file: &[u8], at: usize) -> bool
    requires { at + 128 ≤ length file.now }
    ensures { result ≡ name_good file.now at }
{
    let length = u32_at(file, at + 76);
    for k in 0..40 {
        if !name_byte_is_good(k, length, file[at + 88 + k]) {
            return false;
        }
    }
    true
}

// The job at `at` is within the rules.
pub fn job_is_good(file: &[u8], at: usize) -> bool
    requires { at + 128 ≤ length file.now }
    ensures { result ≡ job_good file.now at }
{
    head_is_good(file, at)
        & settings_are_good(file, at)
        & material_is_good(file, at)
        & name_is_good(file, at)
}
