//! The program: it makes the real inputs, sink and gate, and calls the resolver.
#![tactic(auto)]

use res_io::{FileInputs, NoGate, OutSink};
use resolver::run;
use std::env;
use std::io::ErrorKind;
use std::process::ExitCode;

/// The status where the runtime does not hand over the words.
const NO_WORDS: u8 = 20;

/// The status where memory runs out before the words are there.
const NO_MEMORY: u8 = 9;

fn main(rt: HostRuntime) -> ExitCode {
    let alloc = rt.alloc();
    let args = match env::args(&rt) {
        Ok(args) => args,
        Err(e) => {
            return if e.kind() == ErrorKind::OutOfMemory {
                ExitCode::from(NO_MEMORY)
            } else {
                ExitCode::from(NO_WORDS)
            };
        }
    };
    let words: Vec<String> = match args.skip(1).collect(alloc) {
        Ok(words) => words,
        Err(_) => return ExitCode::from(NO_MEMORY),
    };
    let mut inputs = FileInputs::new(&rt);
    let mut out = OutSink::new(&rt);
    let status = run(&rt, alloc, words.as_slice(), &mut inputs, &mut out, &NoGate);
    ExitCode::from(status)
}
