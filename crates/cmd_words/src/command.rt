//! What words ask for.
ghost use Rattle.std.specs.Prelude.{◌≡◌, [], ◌∷◌, IfOk};
ghost use Rattle.cmd_words.specs.Asked.{inputs_of, may_wait, workers_asked};

use res_base::{Items, OutOfMemory, Text};
use res_model::Opts;
use std::alloc::Global;

/// What the words of the command line ask for.
#[derive(Debug, Drop)]
pub enum Command {
    /// The least placement of the pins.
    Pins {
        tables: Text,
        project: Text,
        opts: Opts,
    },
    /// The clock tree as the project has it.
    Tree {
        tables: Text,
        project: Text,
        opts: Opts,
    },
    /// The least choice of pins and clocks, with the code that sets both up.
    Resolve {
        tables: Text,
        project: Text,
        opts: Opts,
        workers: u32,
        proof: bool,
    },
    /// Whether a refutation or a proof of a least rank holds.
    Check {
        tables: Text,
        project: Text,
        proof: Text,
        opts: Opts,
    },
    /// A made case of this number, resolved.
    Case {
        number: u64,
        workers: u32,
    },
    /// Streams for these DMA requests.
    Dma {
        tables: Text,
        requests: Items<Text>,
        workers: u32,
    },
    /// The bit timing of a CAN bus: a rate in bits per second, and a sample point with its tolerance to
    /// either side, both in per mille of a bit.
    Can {
        tables: Text,
        project: Text,
        rate: u32,
        point: u32,
        tolerance: u32,
    },
    /// The PLLI2S of a sample rate in hertz, with its writes.
    I2s {
        tables: Text,
        project: Text,
        rate: u32,
    },
    /// The text of the project with the least choice as its homes.
    Ioc {
        tables: Text,
        project: Text,
        opts: Opts,
        workers: u32,
    },
    /// The least choice of pins, and of clocks beside them, of a board that is too wide for one rank.
    Board {
        tables: Text,
        project: Text,
        opts: Opts,
    },
    /// Why nothing fits and what to give up, or what the least choice changes.
    Explain {
        tables: Text,
        project: Text,
        opts: Opts,
    },
    /// A C text run on the machine, for flag answers.
    Trace {
        tables: Text,
        project: Text,
        c: Text,
        answers: Text,
        opts: Opts,
    },
}

/// The name of a table.
fn one_name(alloc: Global, tables: &Text) -> Result<Vec<Text>, OutOfMemory>
    ensures { IfOk result (λ names. names.items ≡ tables.now ∷ []) }
{
    Ok(vec![in alloc; Text::copy(alloc, tables.as_str())?]?)
}

/// The names of a table and a project.
fn two_names(alloc: Global, tables: &Text, project: &Text) -> Result<Vec<Text>, OutOfMemory>
    ensures { IfOk result (λ names. names.items ≡ tables.now ∷ project.now ∷ []) }
{
    Ok(vec![in alloc;
        Text::copy(alloc, tables.as_str())?,
        Text::copy(alloc, project.as_str())?,
    ]?)
}

/// The names of a table, a project and a proof.
fn three_names(
    alloc: Global,
    tables: &Text,
    project: &Text,
    proof: &Text,
) -> Result<Vec<Text>, OutOfMemory>
    ensures { IfOk result (λ names. names.items ≡ tables.now ∷ project.now ∷ proof.now ∷ []) }
{
    Ok(vec![in alloc;
        Text::copy(alloc, tables.as_str())?,
        Text::copy(alloc, project.as_str())?,
        Text::copy(alloc, proof.as_str())?,
    ]?)
}

/// The names of a table, a project, a C text and flag answers.
fn four_names(
    alloc: Global,
    tables: &Text,
    project: &Text,
    c: &Text,
    answers: &Text,
) -> Result<Vec<Text>, OutOfMemory>
    ensures { IfOk result (λ names. names.items ≡ tables.now ∷ project.now ∷ c.now ∷ answers.now ∷ []) }
{
    Ok(vec![in alloc;
        Text::copy(alloc, tables.as_str())?,
        Text::copy(alloc, project.as_str())?,
        Text::copy(alloc, c.as_str())?,
        Text::copy(alloc, answers.as_str())?,
    ]?)
}

impl Command {
    /// The names of the inputs that it reads, in their order.
    pub fn inputs(&self, alloc: Global) -> Result<Vec<Text>, OutOfMemory>
        ensures { IfOk result (λ names. names.items ≡ inputs_of self.now) }
    {
        match self {
            Command::Case { .. } => Ok(Vec::new(alloc)),
            Command::Dma { tables, .. } => one_name(alloc, tables),
            Command::Check {
                tables,
                project,
                proof,
                ..
            } => three_names(alloc, tables, project, proof),
            Command::Trace {
                tables,
                project,
                c,
                answers,
                ..
            } => four_names(alloc, tables, project, c, answers),
            Command::Pins {
                tables,
                project,
                ..
            }
            | Command::Tree {
                tables,
                project,
                ..
            }
            | Command::Resolve {
                tables,
                project,
                ..
            }
            | Command::Can {
                tables,
                project,
                ..
            }
            | Command::I2s {
                tables,
                project,
                ..
            }
            | Command::Ioc {
                tables,
                project,
                ..
            }
            | Command::Board {
                tables,
                project,
                ..
            }
            | Command::Explain {
                tables,
                project,
                ..
            } => two_names(alloc, tables, project),
        }
    }

    /// Whether it may start threads.
    pub fn may_wait(&self) -> bool
        ensures { result ≡ may_wait self.now }
    {
        match self {
            Command::Resolve { .. }
            | Command::Case { .. }
            | Command::Dma { .. }
            | Command::Ioc { .. } => true,
            _ => false,
        }
    }

    /// The workers that it asks for.
    pub fn workers(&self) -> u32
        ensures { result ≡ workers_asked self.now }
    {
        match self {
            Command::Resolve { workers, .. } => *workers,
            Command::Case { workers, .. } => *workers,
            Command::Dma { workers, .. } => *workers,
            Command::Ioc { workers, .. } => *workers,
            _ => 1,
        }
    }
}
