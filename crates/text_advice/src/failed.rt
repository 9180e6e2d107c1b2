//! Why a run of a program ended early, and what would be right.
ghost use Rattle.std.specs.Prelude.{◌≡◌, None};
ghost use Rattle.text_lines.specs.Fault.{run_fault_of};
ghost use Rattle.text_lines.specs.declared.fault.RunFault.TheVariants as runs;
ghost use Rattle.text_advice.specs.Failed.{AdvisesOnText};

use crate::explain;
use std::alloc::{AllocError, Global};
use text_lines::fault::{FaultyLine, RunFault, TextFault};

/// Why a run of a program ended early, and what would be right.
#[derive(Debug, Drop)]
pub struct Failed {
    pub fault: RunFault,
    /// Of a fault of the text its line, and a sentence of what would be right there, a line each. `None` of other faults, and where there was
    /// no memory for them.
    pub advice: Option<Vec<u8>>,
}

impl Failed {
    /// That a text has this fault, and what would be right.
    pub fn of_text(alloc: Global, text: &[u8], fault: TextFault) -> Failed
        ensures fault { result.fault ≡ run_fault_of fault }
        ensures advised { AdvisesOnText result }
    {
        Failed {
            fault: RunFault::from(fault),
            advice: match fault {
                TextFault::Line { line, fault } => {
                    explain(alloc, text, FaultyLine { line, fault }).ok()
                }
                TextFault::Memory => None,
            },
        }
    }
}

impl From<RunFault> for Failed {
    ghost from_gives = { λ fault e. e ≡ record { fault = fault; advice = None } };

    fn from(fault: RunFault) -> Failed {
        Failed {
            fault,
            advice: None,
        }
    }
}

impl From<AllocError> for Failed {
    ghost from_gives = { λ _ e. e ≡ record { fault = runs.Memory; advice = None } };

    fn from(_error: AllocError) -> Failed {
        Failed {
            fault: RunFault::Memory,
            advice: None,
        }
    }
}
