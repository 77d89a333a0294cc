//! The command: `rmt play` plays a script from standard input, and writes its replies to standard output; `rmt storm SEED N` plays a
//! workload, and writes a summary of its replies. With `--workers K` both do so among workers.
#![tactic(auto)]

use rmt_outside::{Open, StdSink, StdSource};
use rmt_play::run;
use std::process::ExitCode;
use std::{env, io};

/// The code of words that have no form, which words that can't be read are.
const NO_FORM: u8 = 3;
/// The code of want of memory.
const NO_MEMORY: u8 = 6;

fn main(rt: HostRuntime) -> ExitCode {
    let args = match env::args(&rt) {
        Ok(args) => args,
        Err(e) if e.kind() == io::ErrorKind::OutOfMemory => return ExitCode::from(NO_MEMORY),
        Err(_) => return ExitCode::from(NO_FORM),
    };
    let mut words = Vec::new(rt.alloc());
    for word in args.skip(1) {
        if words.push(word).is_err() {
            return ExitCode::from(NO_MEMORY);
        }
    }
    let mut source = StdSource::new(rt.stdin());
    let mut sink = StdSink::new(rt.stdout());
    let (status, _) = run(&rt, rt.alloc(), &words, &mut source, &mut sink, &Open);
    ExitCode::from(status.code)
}
