// Runs the top call over standard input and standard output.
#![tactic(auto)]

use std::io::ErrorKind;
use std::process::ExitCode;
use std::rt::Env;
use std::{env, io};
use zv_tool::{Status, StdSink, StdSource, Words, run};

// The number to end with where the runtime refuses the arguments, as where one isn't a text. No
// `Status` has it.
const NO_ARGUMENTS: u8 = 8;

// The words after the program's name, or the number to end with.
fn collect<R: Env + AllocGlobal>(rt: &R) -> Result<Words, u8> {
    let args = match env::args(rt) {
        Ok(args) => args,
        Err(e) if e.kind() == ErrorKind::OutOfMemory => return Err(Status::Memory.code()),
        Err(_) => return Err(NO_ARGUMENTS),
    };
    let mut words = Words::new(rt.alloc());
    for arg in args.skip(1) {
        if words.push(&arg).is_err() {
            return Err(Status::Memory.code());
        }
    }
    Ok(words)
}

fn main(rt: HostRuntime) -> ExitCode {
    let words = match collect(&rt) {
        Ok(words) => words,
        Err(code) => return ExitCode::from(code),
    };
    let mut source = StdSource::new(rt.reader());
    let mut sink = StdSink::new(io::writer(&rt));
    ExitCode::from(run(rt.alloc(), &words, &mut source, &mut sink).code())
}
