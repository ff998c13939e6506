// What is found of a part beside its faults: what the first line of a report says.
ghost use Rattle.std.specs.Prelude.{◌≡◌};
ghost use Rattle.fault_row.specs.Summary.{no_summary, sheet_summary, print_summary};

// The thickness of a sheet and its bends, and the height of a print, where there is one.
#[derive(Clone, Copy)]
pub struct Summary {
    pub thickness: Option<f64>,
    pub bends: usize,
    pub height: Option<f64>,
}

impl Summary {
    // Nothing is measured.
    #[tactic(auto, unfolding(crate::specs::Summary::no_summary))]
    pub fn none() -> Summary
        ensures { result ≡ no_summary }
    {
        Summary {
            thickness: None,
            bends: 0,
            height: None,
        }
    }

    // A sheet.
    #[tactic(auto, unfolding(crate::specs::Summary::sheet_summary))]
    pub fn sheet(thickness: f64, bends: usize) -> Summary
        ensures { result ≡ sheet_summary thickness bends }
    {
        Summary {
            thickness: Some(thickness),
            bends,
            height: None,
        }
    }

    // A print.
    #[tactic(auto, unfolding(crate::specs::Summary::print_summary))]
    pub fn print(height: f64) -> Summary
        ensures { result ≡ print_summary height }
    {
        Summary {
            thickness: None,
            bends: 0,
            height: Some(height),
        }
    }
}

// How many faults there are, and the summary.
#[derive(Clone, Copy)]
pub struct Found {
    pub faults: usize,
    pub summary: Summary,
}
