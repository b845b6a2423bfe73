//! The program: it does the job that its words ask for, on files and standard output.
#![tactic(auto)]

use pm_outside::{HostLibrary, HostSink, OpenGate};
use pm_top::{Status, run};
use std::alloc::AllocError;
use std::env;
use std::io::ErrorKind;
use std::process::ExitCode;
use std::rt::Env;

// The words of the command line without the program's name. Words that aren't text are no job, so
// in their place there are none.
fn words<R: Env + AllocGlobal>(rt: &R) -> Result<Vec<String>, AllocError> {
    match env::args(rt) {
        Ok(arguments) => arguments.skip(1).collect(rt.alloc()),
        Err(error) if error.kind() == ErrorKind::InvalidData => Ok(Vec::new(rt.alloc())),
        Err(_) => Err(AllocError),
    }
}

fn main(rt: HostRuntime) -> ExitCode {
    let status = match words(&rt) {
        Ok(words) => {
            let mut library = HostLibrary::new(&rt);
            let mut sink = HostSink::new(&rt);
            run(&rt, rt.alloc(), &words, &mut library, &mut sink, &OpenGate)
        }
        Err(_) => Status::NoMemory,
    };
    let line = status.line();
    if !line.is_empty() {
        // Where standard error fails too, the exit status alone tells.
        let _ = eprintln!(rt; "{line}");
    }
    ExitCode::from(status.code())
}
