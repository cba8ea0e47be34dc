//! The inputs of a call, each read whole.
ghost use Rattle.std.specs.Prelude.{◌≡◌, IfOk};
ghost use Rattle.call_io.specs.Gathered.{IsGathered, IsTaken};
ghost use Rattle.call_io.specs.Inputs.{reads};
ghost use Rattle.res_io.specs.Causes.{NoneFell};

use answers::{Answer, Status, names};
use refusal::Refusal;
use res_base::{Items, OutOfMemory, Text};
use res_io::{Inputs, ReadFault, read_all};
use std::alloc::Global;

/// An input, or what is said of it where it could not be read.
#[derive(Drop)]
pub(crate) enum Taken {
    Whole(Items<u8>),
    Refused(Answer),
}

/// The bytes of each input, or what is said of the first that could not be read.
#[derive(Drop)]
pub enum Gathered {
    Files(Vec<Items<u8>>),
    Refused(Answer),
}

/// Reads one input whole.
fn take_input<I: Inputs>(alloc: Global, inputs: &mut I, name: &str) -> Result<Taken, OutOfMemory>
    ensures files { I.files inputs.new ≡ I.files inputs.old }
    ensures later { NoneFell (I.faults inputs.old) (I.faults inputs.new) }
    ensures taken { IfOk result (λ t. IsTaken name.now
        (reads (I.files inputs.old) (I.faults inputs.old) (I.current inputs.old) (I.taken inputs.old))
        (reads (I.files inputs.new) (I.faults inputs.new) (I.current inputs.new) (I.taken inputs.new)) t) }
{
    match read_all(alloc, inputs, name) {
        Ok(bytes) => Ok(Taken::Whole(Items::of(bytes))),
        Err(Refusal::Fault(ReadFault::Failed)) => {
            Ok(Taken::Refused(names(alloc, Status::ReadFailed, "read failed: ", name)?))
        }
        Err(Refusal::Fault(ReadFault::TooLong)) => {
            Ok(Taken::Refused(names(alloc, Status::TooLong, "too long: ", name)?))
        }
        Err(Refusal::OutOfMemory) => Err(OutOfMemory),
    }
}

/// Reads the inputs of these names in their order, each whole, to the first that can't be read.
pub fn gather<I: Inputs>(
    alloc: Global,
    inputs: &mut I,
    names: &[Text],
) -> Result<Gathered, OutOfMemory>
    ensures { IfOk result (λ g. IsGathered names.now
        (reads (I.files inputs.old) (I.faults inputs.old) (I.current inputs.old) (I.taken inputs.old))
        (reads (I.files inputs.new) (I.faults inputs.new) (I.current inputs.new) (I.taken inputs.new)) g) }
{
    let mut files = Vec::new(alloc);
    for name in names {
        match take_input(alloc, inputs, name.as_str())? {
            Taken::Whole(bytes) => files.push(bytes)?,
            Taken::Refused(answer) => return Ok(Gathered::Refused(answer)),
        }
    }
    Ok(Gathered::Files(files))
}
