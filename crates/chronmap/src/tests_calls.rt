//! Calls of the program over memory.

use crate::memory::{SliceSource, VecSink};
use crate::serve::run_words;
use crate::sink::Sink;
use crate::source::Source;
use cm_command::Word;
use cm_image::MapVault;
use cm_plain::NoMemory;
use cm_run::KillGates;
use std::alloc::Global;
use std::sync::Wait;
use std::test::Fail;
use std::thread::Threads;

/// One segment of one tier.
pub const ONE_TIER: &str = "1,1,64,4,0";

/// The words of these texts.
pub fn words(alloc: Global, texts: &[&str]) -> Result<Vec<Word>, NoMemory> {
    let mut words = Vec::new(alloc);
    for text in texts {
        words.push(Word::of(alloc, text)?)?;
    }
    Ok(words)
}

/// The status of a call with these words, with gates of which none was made.
pub fn call<T: Threads + Wait + Sync, R: Source, W: Sink>(
    rt: &T,
    alloc: Global,
    texts: &[&str],
    source: &mut R,
    sink: &mut W,
) -> Result<u8, NoMemory> {
    let mut vault = MapVault::new(alloc, Vec::new(alloc));
    call_in(rt, alloc, texts, source, sink, &mut vault)
}

/// The status of a call with these words over these files.
pub fn call_in<T: Threads + Wait + Sync, R: Source, W: Sink>(
    rt: &T,
    alloc: Global,
    texts: &[&str],
    source: &mut R,
    sink: &mut W,
    vault: &mut MapVault,
) -> Result<u8, NoMemory> {
    let words = words(alloc, texts)?;
    let mut gates = KillGates::new();
    Ok(run_words(rt, alloc, words.as_slice(), source, sink, vault, &mut gates))
}

/// The status of a call over a script in memory, and the sink that its report or refusal was given to.
pub fn call_on<T: Threads + Wait + Sync>(
    rt: &T,
    alloc: Global,
    texts: &[&str],
    script: &[u8],
) -> Result<(u8, VecSink), NoMemory> {
    let mut source = SliceSource::new(script, 5, Vec::new(alloc));
    let mut sink = VecSink::new(alloc, 7, Vec::new(alloc));
    let status = call(rt, alloc, texts, &mut source, &mut sink)?;
    Ok((status, sink))
}

/// The status of a script's run with these numbers, and the sink that its report or refusal was given to.
pub fn run<T: Threads + Wait + Sync>(
    rt: &T,
    alloc: Global,
    numbers: &str,
    script: &[u8],
) -> Result<(u8, VecSink), NoMemory> {
    call_on(rt, alloc, &["run", "--geo", numbers], script)
}

/// Whether a run of one segment of one tier ends with this status and prints this text.
pub fn prints<T: Threads + Wait + Sync>(
    rt: &T,
    alloc: Global,
    script: &[u8],
    status: u8,
    text: &[u8],
) -> Result<bool, Fail> {
    let (ended, sink) = run(rt, alloc, ONE_TIER, script)?;
    Ok(ended == status && sink.bytes() == text)
}
