// `No material` and `Material`.
ghost use Rattle.std.specs.Prelude.{◌≡◌};
ghost use Rattle.rule_sheet.specs.Material.{is_metal, is_formed, ratio_of};
ghost use Rattle.rule_sheet.specs.Work.{MaterialPut};

use fault_row::flaw::{Flaw, put_flaw};
use file_job::{Job, MaterialClass};

#[tactic(auto, unfolding(crate::specs::Material::is_metal))]
fn is_metal(class: MaterialClass) -> bool
    ensures { result ≡ is_metal class }
{
    matches!(class, MaterialClass::Metal)
}

// Whether the material can be bent; where there is none the check goes on too.
pub fn is_formed(job: Job) -> bool
    ensures { result ≡ is_formed job }
{
    if !job.has_material {
        return true;
    }
    let material = job.material;
    is_metal(material.class) & material.has_bend_ratio
}

// The smallest inside bend radius over the sheet's thickness.
pub fn ratio_of(job: Job) -> f64
    ensures { result ≡ ratio_of job }
{
    if job.has_material {
        return job.material.bend_ratio as f64 / 1000.0;
    }
    1.0
}

// What there is to say of the material. How many faults there are then.
pub fn put_material(cells: &mut [u32], numbers: &mut [f64], job: Job) -> usize
    ensures { MaterialPut job cells.old cells.new numbers.old numbers.new result }
{
    if !job.has_material {
        return put_flaw(cells, numbers, 0, Flaw::NoMaterial);
    }
    if is_formed(job) {
        return 0;
    }
    put_flaw(cells, numbers, 0, Flaw::Material)
}
