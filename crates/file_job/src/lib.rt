// The job of a part file: what the part is made by and of. material.rs and the print settings of dfm.rs, with flags for `Option`.
#![tactic(auto)]

ghost use Rattle.std.specs.Prelude.{◌≡◌, ◌+◌, ◌≤◌, length};
ghost use Rattle.file_job.specs.Job.{process_of, class_of, has_flag, defaults_of, settings_at, material_at, job_at};
ghost use Rattle.file_job.specs.Work.{is_printing};

use file_field::math::Vec3;
use file_field::read::{f64_at, u32_at, vec_at};

// Passed on to the crates above.
pub use file_field;
pub use file_field::math;

#[derive(Clone, Copy, Debug, PartialEq, Eq)]
pub enum Process {
    CncMachining,
    SheetMetal,
    // Fused deposition: a heated nozzle lays down plastic lines.
    Fdm,
    // Stereolithography: resin cured layer by layer.
    Sla,
    // Selective laser sintering: powder fused layer by layer.
    Sls,
}

#[derive(Clone, Copy, Debug, PartialEq, Eq)]
pub enum MaterialClass {
    Metal,
    Plastic,
}

// The fields of material.rs that the check uses. The name's bytes stay in the file.
// A flag stands beside its value: what is asked of a good job (GoodMaterial) speaks of the value that an unset field has.
#[derive(Clone, Copy)]
pub struct Material {
    pub class: MaterialClass,
    // Thinnest wall worth machining, mm.
    pub min_wall: f64,
    pub has_bend_ratio: bool,
    // Smallest inside bend radius over the sheet's thickness, in thousandths.
    pub bend_ratio: u32,
    pub name_length: u32,
}

// The printer that the 3D printing checks are made for.
// A flag stands beside its value: what is asked of a good job (GoodSettings) speaks of the value that an unset field has.
#[derive(Clone, Copy)]
pub struct PrintSettings {
    pub up: Vec3,
    // Layer height, mm.
    pub layer: f64,
    pub has_nozzle: bool,
    // Nozzle diameter, mm.
    pub nozzle: f64,
    pub min_wall: f64,
    pub min_hole: f64,
    pub has_overhang: bool,
    // The furthest that a downward face may lean from vertical without supports, in tenths of a degree.
    pub overhang: u32,
}

// The material has its values where there is none too: GoodMaterial speaks of them.
#[derive(Clone, Copy)]
pub struct Job {
    pub process: Process,
    pub print: PrintSettings,
    pub has_material: bool,
    pub material: Material,
}

pub const MATERIAL: u32 = 1;

pub const NOZZLE: u32 = 2;

pub const OVERHANG: u32 = 4;

pub const BEND_RATIO: u32 = 8;

// Whether a flag is set.
pub fn has(flags: u32, flag: u32) -> bool
    requires { 1 ≤ flag }
    ensures { result ≡ has_flag flags flag }
{
    flags / flag % 2 == 1
}

impl Process {
    // The process with a number of the part file; the last for any number over 4.
    // No TryFrom: the definition has an answer for every number.
    pub fn from_number(n: u32) -> Process
        ensures { result ≡ process_of n }
    {
        match n {
            0 => Process::CncMachining,
            1 => Process::SheetMetal,
            2 => Process::Fdm,
            3 => Process::Sla,
            _ => Process::Sls,
        }
    }

    // One of the 3D printing processes, which take print settings.
    pub fn is_printing(self) -> bool
        ensures { result ≡ is_printing self }
    {
        matches!(self, Process::Fdm | Process::Sla | Process::Sls)
    }
}

impl MaterialClass {
    // The class with a number of the part file; the last for any number over 1.
    // No TryFrom: the definition has an answer for every number.
    pub fn from_number(n: u32) -> MaterialClass
        ensures { result ≡ class_of n }
    {
        match n {
            0 => MaterialClass::Metal,
            _ => MaterialClass::Plastic,
        }
    }
}

impl PrintSettings {
    // A common printer of each kind. Machining and sheet metal have no use for it and get that of FDM.
    pub fn defaults(process: Process) -> PrintSettings
        ensures { result ≡ defaults_of process }
    {
        match process {
            Process::Sla => PrintSettings {
                up: Vec3::Y,
                layer: 0.05,
                has_nozzle: false,
                nozzle: 0.0,
                min_wall: 0.5,
                min_hole: 0.5,
                has_overhang: true,
                overhang: 600,
            },
            Process::Sls => PrintSettings {
                up: Vec3::Y,
                layer: 0.1,
                has_nozzle: false,
                nozzle: 0.0,
                min_wall: 0.8,
                min_hole: 1.5,
                has_overhang: false,
                overhang: 0,
            },
            _ => PrintSettings {
                up: Vec3::Y,
                layer: 0.2,
                has_nozzle: true,
                nozzle: 0.4,
                min_wall: 0.8,
                min_hole: 2.0,
                has_overhang: true,
                overhang: 450,
            },
        }
    }
}

// The print settings of the job at `at`.
pub fn read_settings(file: &[u8], at: usize) -> PrintSettings
    requires { at + 128 ≤ length file.now }
    ensures { result ≡ settings_at file.now at }
{
    let flags = u32_at(file, at + 4);
    PrintSettings {
        up: vec_at(file, at + 8),
        layer: f64_at(file, at + 32),
        has_nozzle: has(flags, NOZZLE),
        nozzle: f64_at(file, at + 40),
        min_wall: f64_at(file, at + 48),
        min_hole: f64_at(file, at + 56),
        has_overhang: has(flags, OVERHANG),
        overhang: u32_at(file, at + 64),
    }
}

// The material of the job at `at`.
pub fn read_material(file: &[u8], at: usize) -> Material
    requires { at + 128 ≤ length file.now }
    ensures { result ≡ material_at file.now at }
{
    let flags = u32_at(file, at + 4);
    Material {
        class: MaterialClass::from_number(u32_at(file, at + 68)),
        min_wall: f64_at(file, at + 80),
        has_bend_ratio: has(flags, BEND_RATIO),
        bend_ratio: u32_at(file, at + 72),
        name_length: u32_at(file, at + 76),
    }
}

// The job at `at`.
pub fn read_job(file: &[u8], at: usize) -> Job
    requires { at + 128 ≤ length file.now }
    ensures { result ≡ job_at file.now at }
{
    Job {
        process: Process::from_number(u32_at(file, at)),
        print: read_settings(file, at),
        has_material: has(u32_at(file, at + 4), MATERIAL),
        material: read_material(file, at),
    }
}
