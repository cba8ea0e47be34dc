//! What the commands do that may start threads.
ghost use Rattle.std.specs.Prelude.{◌≡◌, ◌≤◌, true, length, IfOk};
ghost use Rattle.big_case.specs.Case.{needs};
ghost use Rattle.call_io.specs.Gathered.{IsOfBytes};
ghost use Rattle.case_rules.specs.CaseProblem.{case_problem};
ghost use Rattle.case_rules.specs.Options.{case_opts};
ghost use Rattle.cmd_words.specs.Asked.{inputs_of};
ghost use Rattle.cmd_words.specs.Words.{IsWithinLimits};
ghost use Rattle.ioc_project.specs.Read.{IsRead};
ghost use Rattle.resolver.specs.Due.{IocTask, OfBytes, OverProject, ResolveTask, input_at};
ghost use Rattle.resolver.specs.Opening.{AreInputs, CaseTask, OfTexts};
ghost use Rattle.solver.specs.Owed.{OfCase};

use crate::commands::{input_at, of_bytes};
use crate::home_tree::hertz_fit;
use crate::streams::dma;
use answers::Answer;
use big_case::{Case, make_case};
use case_rules::project_is_short;
use cmd_words::Command;
use project_reading::{Opened, open_project};
use res_base::{Items, OutOfMemory, Text};
use res_io::Gate;
use res_model::{Free, Opts, Project, Tables};
use std::alloc::Global;
use std::sync::Wait;
use std::thread::Threads;

/// The least choice of pins and clocks that meets every limit, by so many workers.
fn resolved<R: Threads + Wait + Sync, G: Gate + Sync>(
    rt: &R,
    alloc: Global,
    tables: Tables,
    project: Project,
    opts: &Opts,
    proof: bool,
    workers: u32,
    gate: &G,
) -> Result<Answer, OutOfMemory>
    requires read { IsRead tables opts.now true project }
    requires workers { (1 ≤ workers) × (workers ≤ 16) }
    ensures due { IfOk result (ResolveTask opts.now proof tables project) }
    ensures status { IfOk result (λ a. IsOfBytes a.status) }
{
    hertz_fit(&tables);
    solver::resolve(rt, alloc, tables, project, opts, proof, workers, gate)
}

/// `resolve`: the least choice of pins and clocks, with or without the refutation of what is below it.
fn resolve<R: Threads + Wait + Sync, G: Gate + Sync>(
    rt: &R,
    alloc: Global,
    files: &[Items<u8>],
    opts: &Opts,
    proof: bool,
    workers: u32,
    gate: &G,
) -> Result<Answer, OutOfMemory>
    requires files { AreInputs 2 files.now }
    requires workers { (1 ≤ workers) × (workers ≤ 16) }
    ensures due { IfOk result (OverProject opts.now true (ResolveTask opts.now proof) files.now) }
    ensures status { IfOk result (λ a. IsOfBytes a.status) }
{
    match open_project(
        alloc,
        input_at(files, 0, 2),
        input_at(files, 1, 2),
        opts,
        true,
    )? {
        Opened::Project { tables, project } => {
            resolved(rt, alloc, tables, project, opts, proof, workers, gate)
        }
        Opened::Refused(answer) => Ok(answer),
    }
}

/// The project's text with the least choice, by so many workers.
fn written_back<R: Threads + Wait + Sync, G: Gate + Sync>(
    rt: &R,
    alloc: Global,
    tables: Tables,
    project: Project,
    text: &[u8],
    opts: &Opts,
    workers: u32,
    gate: &G,
) -> Result<Answer, OutOfMemory>
    requires read { IsRead tables opts.now true project }
    requires few { length text.now ≤ 67108864 }
    requires workers { (1 ≤ workers) × (workers ≤ 16) }
    ensures due { IfOk result (IocTask opts.now text.now tables project) }
    ensures status { IfOk result (λ a. IsOfBytes a.status) }
{
    hertz_fit(&tables);
    ioc_answer::write_least(rt, alloc, text, tables, project, opts, workers, gate)
}

/// `ioc`: the project's text with the least choice of pins and clocks as its homes.
fn ioc<R: Threads + Wait + Sync, G: Gate + Sync>(
    rt: &R,
    alloc: Global,
    files: &[Items<u8>],
    opts: &Opts,
    workers: u32,
    gate: &G,
) -> Result<Answer, OutOfMemory>
    requires files { AreInputs 2 files.now }
    requires workers { (1 ≤ workers) × (workers ≤ 16) }
    ensures due { IfOk result (OverProject opts.now true (IocTask opts.now (input_at files.now 1)) files.now) }
    ensures status { IfOk result (λ a. IsOfBytes a.status) }
{
    let text = input_at(files, 1, 2);
    match open_project(alloc, input_at(files, 0, 2), text, opts, true)? {
        Opened::Project { tables, project } => {
            written_back(rt, alloc, tables, project, text, opts, workers, gate)
        }
        Opened::Refused(answer) => Ok(answer),
    }
}

/// The least choice of a made case, whose texts are read as any other.
fn made<R: Threads + Wait + Sync, G: Gate + Sync>(
    rt: &R,
    alloc: Global,
    number: u64,
    tables: Tables,
    project: Project,
    opts: &Opts,
    workers: u32,
    gate: &G,
) -> Result<Answer, OutOfMemory>
    requires read { IsRead tables opts.now true project }
    requires workers { (1 ≤ workers) × (workers ≤ 16) }
    ensures { IfOk result (CaseTask opts.now number tables project) }
{
    hertz_fit(&tables);
    solver::resolve_case(rt, alloc, number, tables, project, opts, workers, gate)
}

/// The options of a made case, which needs these signals.
fn case_opts(needed: Items<Text>) -> Opts
    requires { needed ≡ needs }
    ensures { result ≡ case_opts }
{
    Opts {
        vdd: 3300,
        needs: needed,
        hclk: None,
        pclk1: None,
        pclk2: None,
        free: Free::All,
    }
}

/// What is due for the texts of a made case.
fn of_texts<R: Threads + Wait + Sync, G: Gate + Sync>(
    rt: &R,
    alloc: Global,
    number: u64,
    workers: u32,
    gate: &G,
) -> Result<Answer, OutOfMemory>
    requires { (1 ≤ workers) × (workers ≤ 16) }
    ensures { IfOk result (OfTexts number) }
{
    let Case {
        tables,
        project,
        needs,
    } = make_case(alloc, number)?;
    project_is_short();
    let opts = case_opts(needs);
    match open_project(alloc, tables.as_slice(), project.as_slice(), &opts, true)? {
        Opened::Project { tables, project } => {
            made(rt, alloc, number, tables, project, &opts, workers, gate)
        }
        Opened::Refused(answer) => Ok(answer),
    }
}

/// `case`: the least choice of a made case. The readers take its texts, so it is always answered.
fn made_case<R: Threads + Wait + Sync, G: Gate + Sync>(
    rt: &R,
    alloc: Global,
    number: u64,
    workers: u32,
    gate: &G,
) -> Result<Answer, OutOfMemory>
    requires { (1 ≤ workers) × (workers ≤ 16) }
    ensures due { IfOk result (OfCase number (case_problem number)) }
    ensures status { IfOk result (λ a. IsOfBytes a.status) }
{
    of_texts(rt, alloc, number, workers, gate)
}

/// What a command owes for the bytes of its inputs, by as many workers as it asks for.
pub(crate) fn of_bytes_by<R: Threads + Wait + Sync, G: Gate + Sync>(
    rt: &R,
    alloc: Global,
    command: Command,
    files: &[Items<u8>],
    gate: &G,
) -> Result<Answer, OutOfMemory>
    requires files { AreInputs (length (inputs_of command)) files.now }
    requires limits { IsWithinLimits command }
    ensures due { IfOk result (OfBytes command files.now) }
    ensures status { IfOk result (λ a. IsOfBytes a.status) }
{
    match command {
        Command::Resolve {
            opts,
            workers,
            proof,
            ..
        } => resolve(rt, alloc, files, &opts, proof, workers, gate),
        Command::Case { number, workers } => made_case(rt, alloc, number, workers, gate),
        Command::Dma {
            requests,
            workers,
            ..
        } => dma(rt, alloc, files, requests.as_slice(), workers, gate),
        Command::Ioc { opts, workers, .. } => ioc(rt, alloc, files, &opts, workers, gate),
        other => of_bytes(alloc, other, files),
    }
}
