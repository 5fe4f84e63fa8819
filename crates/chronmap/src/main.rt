//! Runs scripts of callers over one map, on threads, and prints their answers and the final map.
#![tactic(auto)]

mod adapters;
mod args;
mod images;
mod memory;
mod offline;
mod refuse;
mod runs;
mod serve;
mod sink;
mod source;
mod status;
mod stop;
#[cfg(test)]
mod tests_callers;
#[cfg(test)]
mod tests_calls;
#[cfg(test)]
mod tests_files;
#[cfg(test)]
mod tests_runs;
#[cfg(test)]
mod tests_streams;
#[cfg(test)]
mod tests_words;

pub use adapters::{StdSink, StdSource};
use args::words_of;
use cm_command::Word;
use cm_image::DirVault;
use cm_run::KillGates;
pub use memory::{SliceSource, VecSink};
use refuse::refuse;
pub use serve::{offline_words, run_words};
pub use sink::{Sink, write_text};
pub use source::{MOST_TAKEN, ReadStop, Source, read_input};
pub use status::Status;
use std::alloc::Global;
use std::process::ExitCode;
use std::{env, io};
use stop::Stop;

// The words behind the program's name, of the arguments as they could be read. Arguments that are no
// text are words that the program doesn't take.
fn command_words(alloc: Global, args: io::Result<env::Args>) -> Result<Vec<Word>, Stop> {
    match args {
        Ok(args) => {
            let args: Vec<String> = args.collect(alloc)?;
            Ok(words_of(alloc, args.as_slice())?)
        }
        Err(error) if error.kind() == io::ErrorKind::OutOfMemory => Err(Stop::NoMemory),
        Err(_) => Err(Stop::Usage),
    }
}

fn main(rt: HostRuntime) -> ExitCode {
    let alloc = rt.alloc();
    let mut source = StdSource::new(rt.stdin());
    let mut sink = StdSink::new(rt.stdout());
    let mut vault = DirVault::new(alloc, &rt);
    let mut gates = KillGates::new();
    let status = match command_words(alloc, env::args(&rt)) {
        Ok(words) => run_words(
            &rt,
            alloc,
            words.as_slice(),
            &mut source,
            &mut sink,
            &mut vault,
            &mut gates,
        ),
        Err(stop) => refuse(&mut sink, stop).code(),
    };
    ExitCode::from(status)
}
