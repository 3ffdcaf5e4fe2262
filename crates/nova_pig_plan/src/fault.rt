//! Why a script is no plan.
ghost use Rattle.std.specs.Prelude.{◌≡◌};

use std::alloc::AllocError;
use thiserror::Error;

/// A fault of a statement.
#[derive(Clone, Copy)]
pub enum Cause {
    UnknownAlias,
    UnknownField,
    Ambiguous,
    WrongType,
    SchemaDiffers,
    UnknownChannel,
    TooWide,
    BagMisused,
    NoStore,
    AliasTwice,
}

/// Why there is no answer.
#[derive(Clone, Copy)]
pub enum Stop {
    Fault(Cause),
    NoMemory,
}

impl From<AllocError> for Stop {
    ghost use Rattle.nova_pig_plan.specs.declared.fault.Stop.TheVariants as stop;

    ghost from_gives = { λ _ r. r ≡ stop.NoMemory };

    fn from(_error: AllocError) -> Stop {
        Stop::NoMemory
    }
}

impl From<Cause> for Stop {
    ghost use Rattle.nova_pig_plan.specs.declared.fault.Stop.TheVariants as stop;

    ghost from_gives = { λ c r. r ≡ stop.Fault c };

    fn from(cause: Cause) -> Stop {
        Stop::Fault(cause)
    }
}

/// Why a script has no plan, at a statement.
#[derive(Clone, Copy)]
pub enum FaultAt {
    At { cause: Cause, statement: u32 },
    NoMemory,
}

/// Why a script has no plan: the first fault, statement by statement, with the number of its
/// statement from 1.
#[derive(Clone, Copy, Debug, PartialEq, Eq, Error)]
pub enum PlanFault {
    /// An operand or the stored alias isn't defined before.
    #[error("unknown alias in statement {statement}")]
    UnknownAlias { statement: u32 },
    /// A reference names no column.
    #[error("unknown field in statement {statement}")]
    UnknownField { statement: u32 },
    /// A name fits more than one column.
    #[error("ambiguous field in statement {statement}")]
    Ambiguous { statement: u32 },
    /// Kinds break the rules: of an operation, an item, a call, the kind after AS, or JOIN's BY.
    #[error("wrong type in statement {statement}")]
    WrongType { statement: u32 },
    /// UNION's arms, or STORE's alias and the output channel, differ in number or kinds of
    /// columns; or JOIN's BY lists differ in length.
    #[error("schemas differ in statement {statement}")]
    SchemaDiffers { statement: u32 },
    /// LOAD names no input of the task, or STORE another channel than the output.
    #[error("unknown channel in statement {statement}")]
    UnknownChannel { statement: u32 },
    /// The alias would have more than 64 columns.
    #[error("too many columns in statement {statement}")]
    TooWide { statement: u32 },
    /// A grouped alias or its bag stands where none may, or a call where no group is.
    #[error("a bag is misused in statement {statement}")]
    BagMisused { statement: u32 },
    /// There is no STORE; the statement is one past the last.
    #[error("no STORE before statement {statement}")]
    NoStore { statement: u32 },
    /// The statement defines an alias that an earlier one defines.
    #[error("alias defined twice in statement {statement}")]
    AliasTwice { statement: u32 },
    /// Memory ran out.
    #[error("out of memory")]
    NoMemory,
}

impl From<AllocError> for PlanFault {
    ghost use Rattle.nova_pig_plan.specs.declared.fault.PlanFault.TheVariants as plan;

    ghost from_gives = { λ _ r. r ≡ plan.NoMemory };

    fn from(_error: AllocError) -> PlanFault {
        PlanFault::NoMemory
    }
}
