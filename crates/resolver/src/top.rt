//! The top call.
ghost use Rattle.std.specs.Prelude.{◌≡◌, ◌≢◌, ◌≤◌, Option, Some, None, Result, Ok, Err, length, map, string_bytes, true, false, IfOk, IfSome, IfNone};
ghost use Rattle.answers.specs.Said.{number_of};
ghost use Rattle.answers.specs.declared.answer.Status.TheVariants as status;
ghost use Rattle.call_io.specs.Inputs.{Reads, reads, wrote};
ghost use Rattle.call_io.specs.Ran.{Answers, Ended, NoneFailed, Ran, Served};
ghost use Rattle.cmd_words.specs.Asked.{inputs_of, may_wait};
ghost use Rattle.refusal.specs.Refusals.{Refuses};
ghost use Rattle.cmd_words.specs.Words.{IsWithinLimits, command_of};
ghost use Rattle.cmd_words.specs.declared.command.Command.{Command};
ghost use Rattle.cmd_words.specs.declared.fault.UsageFault.{UsageFault};
ghost use Rattle.res_io.specs.Files.{bytes_in};
ghost use Rattle.resolver.specs.Due.{Due, IsUsage, OfCommand, names_of, waits};

use crate::commands::of_bytes;
use crate::refusals::refused_words;
use crate::threads::of_bytes_by;
use answers::{Answer, Status};
use call_io::{Gathered, gather, write_answer};
use cmd_words::{Command, UsageFault, read_words};
use refusal::Refusal;
use res_base::{OutOfMemory, Text};
use res_io::{Gate, Inputs, Sink, SureInputs, SureSink};
use std::alloc::Global;
use std::sync::Wait;
use std::thread::Threads;

/// Reads the inputs of these names, which are those of a command that starts no threads, and makes its answer.
fn answer_over<I: Inputs>(
    alloc: Global,
    command: Command,
    inputs: &mut I,
    names: &[Text],
) -> Result<Answer, OutOfMemory>
    requires names { names.now ≡ inputs_of command }
    requires limits { IsWithinLimits command }
    requires plain { may_wait command ≡ false }
    ensures served { IfOk result (Served (inputs_of command) (OfCommand command)
        (reads (I.files inputs.old) (I.faults inputs.old) (I.current inputs.old) (I.taken inputs.old))
        (reads (I.files inputs.new) (I.faults inputs.new) (I.current inputs.new) (I.taken inputs.new))) }
    ensures no_usage { IfOk result (λ a. a.status ≢ status.Usage) }
{
    match gather(alloc, inputs, names)? {
        Gathered::Files(files) => of_bytes(alloc, command, files.as_slice()),
        Gathered::Refused(answer) => Ok(answer),
    }
}

/// Reads what a command reads that starts no threads, and makes its answer.
fn answer<I: Inputs>(alloc: Global, command: Command, inputs: &mut I) -> Result<Answer, OutOfMemory>
    requires limits { IsWithinLimits command }
    requires plain { may_wait command ≡ false }
    ensures served { IfOk result (Served (inputs_of command) (OfCommand command)
        (reads (I.files inputs.old) (I.faults inputs.old) (I.current inputs.old) (I.taken inputs.old))
        (reads (I.files inputs.new) (I.faults inputs.new) (I.current inputs.new) (I.taken inputs.new))) }
    ensures no_usage { IfOk result (λ a. a.status ≢ status.Usage) }
{
    let names = command.inputs(alloc)?;
    answer_over(alloc, command, inputs, names.as_slice())
}

/// Does what a command asks for that starts no threads.
fn serve<I: Inputs, K: Sink>(alloc: Global, command: Command, inputs: &mut I, out: &mut K) -> Status
    requires limits { IsWithinLimits command }
    requires plain { may_wait command ≡ false }
    ensures ended { Ended (inputs_of command) (OfCommand command)
        (reads (I.files inputs.old) (I.faults inputs.old) (I.current inputs.old) (I.taken inputs.old))
        (reads (I.files inputs.new) (I.faults inputs.new) (I.current inputs.new) (I.taken inputs.new))
        (wrote (K.written out.old) (K.faults out.old)) (wrote (K.written out.new) (K.faults out.new)) result }
    ensures no_usage { result ≢ status.Usage }
{
    let answer = answer(alloc, command, inputs);
    write_answer(out, &answer)
}

/// Reads the inputs of these names, which are those of a command, and makes its answer by as many workers as it asks for.
fn answer_over_by<R: Threads + Wait + Sync, I: Inputs, G: Gate + Sync>(
    rt: &R,
    alloc: Global,
    command: Command,
    inputs: &mut I,
    names: &[Text],
    gate: &G,
) -> Result<Answer, OutOfMemory>
    requires names { names.now ≡ inputs_of command }
    requires limits { IsWithinLimits command }
    ensures served { IfOk result (Served (inputs_of command) (OfCommand command)
        (reads (I.files inputs.old) (I.faults inputs.old) (I.current inputs.old) (I.taken inputs.old))
        (reads (I.files inputs.new) (I.faults inputs.new) (I.current inputs.new) (I.taken inputs.new))) }
    ensures no_usage { IfOk result (λ a. a.status ≢ status.Usage) }
{
    match gather(alloc, inputs, names)? {
        Gathered::Files(files) => of_bytes_by(rt, alloc, command, files.as_slice(), gate),
        Gathered::Refused(answer) => Ok(answer),
    }
}

/// Reads what a command reads, and makes its answer by as many workers as it asks for.
fn answer_by<R: Threads + Wait + Sync, I: Inputs, G: Gate + Sync>(
    rt: &R,
    alloc: Global,
    command: Command,
    inputs: &mut I,
    gate: &G,
) -> Result<Answer, OutOfMemory>
    requires { IsWithinLimits command }
    ensures served { IfOk result (Served (inputs_of command) (OfCommand command)
        (reads (I.files inputs.old) (I.faults inputs.old) (I.current inputs.old) (I.taken inputs.old))
        (reads (I.files inputs.new) (I.faults inputs.new) (I.current inputs.new) (I.taken inputs.new))) }
    ensures no_usage { IfOk result (λ a. a.status ≢ status.Usage) }
{
    let names = command.inputs(alloc)?;
    answer_over_by(rt, alloc, command, inputs, names.as_slice(), gate)
}

/// Does what a command asks for, by as many workers as it asks for.
fn serve_by<R: Threads + Wait + Sync, I: Inputs, K: Sink, G: Gate + Sync>(
    rt: &R,
    alloc: Global,
    command: Command,
    inputs: &mut I,
    out: &mut K,
    gate: &G,
) -> Status
    requires { IsWithinLimits command }
    ensures ended { Ended (inputs_of command) (OfCommand command)
        (reads (I.files inputs.old) (I.faults inputs.old) (I.current inputs.old) (I.taken inputs.old))
        (reads (I.files inputs.new) (I.faults inputs.new) (I.current inputs.new) (I.taken inputs.new))
        (wrote (K.written out.old) (K.faults out.old)) (wrote (K.written out.new) (K.faults out.new)) result }
    ensures no_usage { result ≢ status.Usage }
{
    let answer = answer_by(rt, alloc, command, inputs, gate);
    write_answer(out, &answer)
}

/// Says that words have no reading.
fn refuse<K: Sink>(alloc: Global, refusal: Refusal<UsageFault>, out: &mut K) -> Status
    ensures said { (asked : Result Command UsageFault) → Refuses refusal asked → (r : Reads) → Ended (names_of asked) (Due asked) r r
        (wrote (K.written out.old) (K.faults out.old)) (wrote (K.written out.new) (K.faults out.new)) result }
    ensures usage { (asked : Result Command UsageFault) → Refuses refusal asked → IsUsage asked (number_of result) }
    ensures waits { (asked : Result Command UsageFault) → Refuses refusal asked → result ≢ status.OutOfMemory → waits asked ≡ false }
{
    let answer = refused_words(alloc, refusal);
    write_answer(out, &answer)
}

/// Does what the words ask for, and answers the status. The whole text is made before its first byte is written.
///
/// The answer is None for the commands that may start threads, `resolve`, `case`, `dma` and `ioc`: nothing is read or written then.
pub fn run_plain<I: Inputs, K: Sink>(
    alloc: Global,
    words: &[String],
    inputs: &mut I,
    out: &mut K,
) -> Option<u8>
    ensures none { result ≡ None → waits (command_of (map string_bytes words.now)) ≡ true }
    ensures inputs_untouched { result ≡ None → inputs.new ≡ inputs.old }
    ensures out_untouched { result ≡ None → out.new ≡ out.old }
    ensures some { IfSome result (λ status. status ≢ 9 → waits (command_of (map string_bytes words.now)) ≡ false) }
    ensures ran { IfSome result (Ran (names_of (command_of (map string_bytes words.now))) (Due (command_of (map string_bytes words.now)))
        (reads (I.files inputs.old) (I.faults inputs.old) (I.current inputs.old) (I.taken inputs.old))
        (reads (I.files inputs.new) (I.faults inputs.new) (I.current inputs.new) (I.taken inputs.new))
        (wrote (K.written out.old) (K.faults out.old)) (wrote (K.written out.new) (K.faults out.new))) }
    ensures complete { NoneFailed (names_of (command_of (map string_bytes words.now)))
        (reads (I.files inputs.old) (I.faults inputs.old) (I.current inputs.old) (I.taken inputs.old))
        (reads (I.files inputs.new) (I.faults inputs.new) (I.current inputs.new) (I.taken inputs.new))
        (wrote (K.written out.old) (K.faults out.old)) (wrote (K.written out.new) (K.faults out.new))
        → IfSome result (Answers (I.files inputs.old) (names_of (command_of (map string_bytes words.now))) (Due (command_of (map string_bytes words.now)))) }
    ensures usage { IfSome result (IsUsage (command_of (map string_bytes words.now))) }
{
    match read_words(alloc, words) {
        Ok(command) => {
            if command.may_wait() {
                None
            } else {
                Some(serve(alloc, command, inputs, out).number())
            }
        }
        Err(refusal) => Some(refuse(alloc, refusal, out).number()),
    }
}

/// The same over inputs and a sink that never fail: the answer is the one that is due, or 9.
pub fn run_surely(
    alloc: Global,
    words: &[String],
    inputs: &mut SureInputs,
    out: &mut SureSink,
) -> Option<u8>
    ensures none { result ≡ None → waits (command_of (map string_bytes words.now)) ≡ true }
    ensures some { IfSome result (λ status. status ≢ 9 → waits (command_of (map string_bytes words.now)) ≡ false) }
    ensures answers { IfSome result (Answers (Some (bytes_in inputs.old.files)) (names_of (command_of (map string_bytes words.now))) (Due (command_of (map string_bytes words.now)))) }
{
    run_plain(alloc, words, inputs, out)
}

/// Does all that the program does, and answers the status. The whole text is made before its first byte is written.
pub fn run<R: Threads + Wait + Sync, I: Inputs, K: Sink, G: Gate + Sync>(
    rt: &R,
    alloc: Global,
    words: &[String],
    inputs: &mut I,
    out: &mut K,
    gate: &G,
) -> u8
    ensures ran { Ran (names_of (command_of (map string_bytes words.now))) (Due (command_of (map string_bytes words.now)))
        (reads (I.files inputs.old) (I.faults inputs.old) (I.current inputs.old) (I.taken inputs.old))
        (reads (I.files inputs.new) (I.faults inputs.new) (I.current inputs.new) (I.taken inputs.new))
        (wrote (K.written out.old) (K.faults out.old)) (wrote (K.written out.new) (K.faults out.new)) result }
    ensures complete { NoneFailed (names_of (command_of (map string_bytes words.now)))
        (reads (I.files inputs.old) (I.faults inputs.old) (I.current inputs.old) (I.taken inputs.old))
        (reads (I.files inputs.new) (I.faults inputs.new) (I.current inputs.new) (I.taken inputs.new))
        (wrote (K.written out.old) (K.faults out.old)) (wrote (K.written out.new) (K.faults out.new))
        → Answers (I.files inputs.old) (names_of (command_of (map string_bytes words.now))) (Due (command_of (map string_bytes words.now))) result }
    ensures usage { IsUsage (command_of (map string_bytes words.now)) result }
{
    match read_words(alloc, words) {
        Ok(command) => serve_by(rt, alloc, command, inputs, out, gate).number(),
        Err(refusal) => refuse(alloc, refusal, out).number(),
    }
}

/// The same over inputs and a sink that never fail: the answer is the one that is due, or 9.
pub fn run_all_surely<R: Threads + Wait + Sync, G: Gate + Sync>(
    rt: &R,
    alloc: Global,
    words: &[String],
    inputs: &mut SureInputs,
    out: &mut SureSink,
    gate: &G,
) -> u8
    ensures answers { Answers (Some (bytes_in inputs.old.files)) (names_of (command_of (map string_bytes words.now))) (Due (command_of (map string_bytes words.now))) result }
{
    run(rt, alloc, words, inputs, out, gate)
}
