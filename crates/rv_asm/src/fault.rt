// Why a source is refused.
ghost use Rattle.std.specs.Prelude.{◌≡◌};

use std::alloc::{AllocError, AllocFailed};
use std::fmt::{self, Display, Formatter};
use thiserror::Error;

/// What is wrong with a line. Of several, the one that stands first here is told.
#[derive(Clone, Copy, Debug, PartialEq, Eq)]
pub enum AsmKind {
    /// It is no label, and there is no instruction of its name.
    Word,
    /// The operands are not of the instruction's form.
    Operand,
    /// A line before it gives the same label.
    Twice,
    /// No line of the source gives the label that it names.
    Label,
    /// It has a value that its field can't hold.
    Range,
}

impl AsmKind {
    ghost use Rattle.rv_asm.specs.Faults.{kind_name};

    /// The kind in lower case.
    pub fn name(self) -> &'static str
        ensures { result.now ≡ kind_name self }
    {
        match self {
            AsmKind::Word => "word",
            AsmKind::Operand => "operand",
            AsmKind::Twice => "twice",
            AsmKind::Label => "label",
            AsmKind::Range => "range",
        }
    }
}

impl Display for AsmKind {
    ghost use Rattle.std.specs.Prelude.{Some};
    ghost use Rattle.rv_asm.specs.Faults.{kind_name};

    ghost output = { λ kind. Some (kind_name kind) };

    fn fmt<W: fmt::Write>(&self, f: &mut Formatter<W>) -> fmt::Result {
        f.write_str(self.name())
    }
}

/// Why a source is refused.
#[derive(Clone, Copy, Debug, PartialEq, Eq, Error)]
pub enum AsmFault {
    #[error("memory could not be had")]
    NoMemory,
    /// The first faulty line, counted from 1.
    #[error("line {line} {kind}")]
    Line { line: u32, kind: AsmKind },
}

impl From<AllocError> for AsmFault {
    ghost use Rattle.rv_asm.specs.declared.fault.AsmFault.TheVariants.{NoMemory};

    ghost from_gives = { λ _ e. e ≡ NoMemory };

    fn from(_: AllocError) -> AsmFault {
        AsmFault::NoMemory
    }
}

impl<T: Drop> From<AllocFailed<T>> for AsmFault {
    ghost use Rattle.rv_asm.specs.declared.fault.AsmFault.TheVariants.{NoMemory};

    ghost from_gives = { λ _ e. e ≡ NoMemory };

    fn from(_: AllocFailed<T>) -> AsmFault {
        AsmFault::NoMemory
    }
}
