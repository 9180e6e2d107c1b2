//! What is wrong with a text, and why it was not played.
ghost use Rattle.std.specs.Prelude.{◌≡◌, Some};
ghost use Rattle.text_lines.specs.declared.fault.TextFault.TheVariants as texts;
ghost use Rattle.text_lines.specs.declared.fault.RunFault.TheVariants as runs;

use model_events::event::StepFault;
use std::alloc::AllocError;
use std::fmt;

/// What is wrong with a line of a text.
#[derive(Clone, Copy, Debug, PartialEq, Eq)]
pub enum LineFault {
    /// The first line names no object.
    NoObject,
    /// The second word is unknown for the object, or there are too few or too many words.
    BadLine,
    /// A word that is to be a number is none, or is out of its range.
    BadNumber,
    /// There is no party of this number.
    NoParty,
    /// The party has a call under way.
    Busy,
    /// The party has a hold, and begins a locking call.
    Holding,
    /// The party has no hold, and begins a call that needs one.
    NoHold,
    /// The party has no call under way.
    Idle,
    /// The party stands at a closure, which has to be answered first.
    Waiting,
    /// The party does not stand at a closure of this kind.
    NotWaiting,
    /// `run` made as many steps as it may, and came to no end.
    StepLimit,
}

impl LineFault {
    ghost use Rattle.text_lines.specs.Fault.{fault_words};

    fn words(self) -> &'static str
        ensures { result.now ≡ fault_words self }
    {
        match self {
            LineFault::NoObject => "no object",
            LineFault::BadLine => "bad line",
            LineFault::BadNumber => "bad number",
            LineFault::NoParty => "no party",
            LineFault::Busy => "busy",
            LineFault::Holding => "holding",
            LineFault::NoHold => "no hold",
            LineFault::Idle => "idle",
            LineFault::Waiting => "waiting",
            LineFault::NotWaiting => "not waiting",
            LineFault::StepLimit => "step limit",
        }
    }
}

impl fmt::Display for LineFault {
    ghost use Rattle.text_lines.specs.Fault.{fault_words};

    ghost output = { λ f. Some (fault_words f) };

    fn fmt<W: fmt::Write>(&self, f: &mut fmt::Formatter<W>) -> fmt::Result {
        f.write_str(self.words())
    }
}

impl From<StepFault> for LineFault {
    ghost use Rattle.text_lines.specs.Fault.{line_fault_of};

    ghost from_gives = { λ fault e. e ≡ line_fault_of fault };

    fn from(fault: StepFault) -> LineFault {
        match fault {
            StepFault::NoParty => LineFault::NoParty,
            StepFault::Busy => LineFault::Busy,
            StepFault::OtherObject => LineFault::BadLine,
            StepFault::Holding => LineFault::Holding,
            StepFault::NoHold => LineFault::NoHold,
            StepFault::Idle => LineFault::Idle,
            StepFault::WaitingForAnswer => LineFault::Waiting,
            StepFault::NotWaiting => LineFault::NotWaiting,
        }
    }
}

/// A line with a fault, counted from 1.
#[derive(Clone, Copy, Debug, PartialEq, Eq)]
pub struct FaultyLine {
    pub line: u64,
    pub fault: LineFault,
}

/// Why a text was not played.
#[derive(Clone, Copy, Debug, PartialEq, Eq)]
pub enum TextFault {
    /// The first line with a fault, counted from 1.
    Line { line: u64, fault: LineFault },
    /// Memory ran out.
    Memory,
}

impl From<FaultyLine> for TextFault {
    ghost from_gives = { λ found e. e ≡ texts.Line found.line found.fault };

    fn from(found: FaultyLine) -> TextFault {
        TextFault::Line {
            line: found.line,
            fault: found.fault,
        }
    }
}

impl From<AllocError> for TextFault {
    ghost from_gives = { λ _ e. e ≡ texts.Memory };

    fn from(_error: AllocError) -> TextFault {
        TextFault::Memory
    }
}

/// Why a run of the program ended early.
#[derive(Clone, Copy, Debug, PartialEq, Eq)]
pub enum RunFault {
    /// The first line of the text with a fault, counted from 1. What was written, the program's `run` says.
    Text { line: u64, fault: LineFault },
    /// The reader failed. Nothing was written.
    Read,
    /// The writer failed, or took no byte. A beginning of the output was written.
    Write,
    /// Memory ran out. Nothing was written.
    Memory,
}

impl RunFault {
    ghost use Rattle.text_lines.specs.Fault.{status_of};

    /// The exit status: 2 for a fault of the text, else 1.
    pub fn status(&self) -> u8
        ensures { result ≡ status_of self.now }
    {
        match self {
            RunFault::Text { .. } => 2,
            RunFault::Read | RunFault::Write | RunFault::Memory => 1,
        }
    }
}

impl fmt::Display for RunFault {
    ghost use Rattle.text_lines.specs.Fault.{run_fault_words};

    ghost output = { λ f. Some (run_fault_words f) };

    fn fmt<W: fmt::Write>(&self, f: &mut fmt::Formatter<W>) -> fmt::Result {
        match self {
            RunFault::Text { line, fault } => write!(f, "line {line}: {fault}"),
            RunFault::Read => write!(f, "reading failed"),
            RunFault::Write => write!(f, "writing failed"),
            RunFault::Memory => write!(f, "no memory"),
        }
    }
}

impl From<TextFault> for RunFault {
    ghost use Rattle.text_lines.specs.Fault.{run_fault_of};

    ghost from_gives = { λ fault e. e ≡ run_fault_of fault };

    fn from(fault: TextFault) -> RunFault {
        match fault {
            TextFault::Line { line, fault } => RunFault::Text { line, fault },
            TextFault::Memory => RunFault::Memory,
        }
    }
}

impl From<AllocError> for RunFault {
    ghost from_gives = { λ _ e. e ≡ runs.Memory };

    fn from(_error: AllocError) -> RunFault {
        RunFault::Memory
    }
}
