//! The line and the status of words that are refused.
ghost use Rattle.std.specs.Prelude.{◌≡◌, IfOk};
ghost use Rattle.resolver.specs.Refusing.{IsSaid};

use answers::{Answer, Status, counts};
use cmd_words::UsageFault;
use refusal::Refusal;
use res_base::OutOfMemory;
use std::alloc::Global;

/// The first word that can't stand where it does.
fn word_of(fault: UsageFault) -> usize
    ensures { fault ≡ UsageFault.Word result }
{
    match fault {
        UsageFault::Word { word } => word,
    }
}

/// What is said of words that have no reading.
pub(crate) fn refused_words(
    alloc: Global,
    refusal: Refusal<UsageFault>,
) -> Result<Answer, OutOfMemory>
    ensures { IfOk result (IsSaid refusal) }
{
    match refusal {
        Refusal::Fault(fault) => {
            counts(alloc, Status::Usage, "usage: word ", word_of(fault) as u64)
        }
        Refusal::OutOfMemory => Err(OutOfMemory),
    }
}
