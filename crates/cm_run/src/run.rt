//! The run of a script: a pass for each caller, all callers beside each other, and what they leave.

ghost use Rattle.std.specs.Prelude.{◌≡◌, ◌+◌, ◌<◌, ◌≤◌, ◌++◌, ◌∷◌, [], ℕ, All, IfOk, OnOk, false, get_or, sum, true};
ghost use Rattle.cm_words.specs.LawfulMaps.{IsLawfulMap};
ghost use Rattle.cm_words.specs.Maps.{segment_in};
ghost use Rattle.cm_store.specs.Tables.{linked_in, linked_of};
ghost use Rattle.cm_script.specs.Scripts.{IsFor};
ghost use Rattle.cm_script.specs.declared.limits.TheConstants.{MAX_CALLERS};
ghost use Rattle.cm_caller.specs.Callers.{is_starved};
ghost use Rattle.cm_caller.specs.Records.{IsReady, Performs};
ghost use Rattle.cm_run.specs.Callers.{AreReady, HasPerformed, HavePerformed, IsRootOf, HasJoined, MadeBelow, NeverDies, RootKeeps, asks, askers_of, numbers};
ghost use Rattle.cm_run.specs.Explained.{Explained};
ghost use Rattle.cm_run.specs.Gathered.{Gathers, ReportsRun, with_end};
ghost use Rattle.cm_run.specs.RunGates.{CanCountDeaths, IsCountable, SameGates};

use crate::gates::GateMaker;
use cm_caller::{Caller, Halt};
use cm_check::contents;
use cm_command::Kill;
use cm_plain::{ListOf, NoMemory, Receipt};
use cm_script::{CallerEnd, Report, Script};
use cm_store::{Pass, Store};
use cm_tiers::chain;
use cm_words::{Dead, FixedMem, Fuse, Never, Words};
use std::alloc::Global;
use std::sync::Wait;
use std::thread;
use std::thread::Threads;

/// What a run leaves: its report, and the words of the map.
#[derive(Drop)]
pub struct Outcome {
    pub report: Report,
    pub words: Words,
}

/// Which callers have a record in the script.
fn askers(script: &Script) -> [bool; 64]
    requires { All (λ line. line.caller < 64) script.now }
    ensures { (caller : ℕ) → caller < 64 → get_or result caller false ≡ asks script.now caller }
{
    let mut asks = [false; 64];
    for at in 0..script.len() {
        asks[script.line(at).caller as usize] = true;
    }
    asks
}

/// A caller for each number of the script, in ascending order, each with a pass and a gate. Takes memory.
fn callers_of<G: GateMaker>(
    alloc: Global,
    store: &Store,
    root: &mut Pass<Never>,
    script: &Script,
    gates: &mut G,
) -> Result<Vec<Caller<G::Gate>>, NoMemory>
    requires root { IsRootOf store.now root.old }
    requires made { HasJoined [] [] root.old }
    requires keeps { RootKeeps store.now (λ segment. []) root.old }
    requires callers { All (λ line. line.caller < 64) script.now }
    requires never { NeverDies (G.seen gates.old) }
    requires countable { IsCountable (G.seen gates.old) }
    ensures ready { IfOk result (λ callers. AreReady G.Gate.fused store.now script.now callers.items root.new) }
    ensures made { IfOk result (λ callers. MadeBelow script.now MAX_CALLERS (G.seen gates.old) (G.seen gates.new)) }
{
    let asks = askers(script);
    let mut callers = Vec::new(alloc);
    for number in 0..64u32 {
        if !asks[number as usize] {
            continue;
        }
        let gate = gates.make(number, None);
        let pass = store.split(alloc, root, number, gate)?;
        callers.push(Caller {
            pass,
            number,
            receipts: Vec::new(alloc),
            halt: None,
        })?;
    }
    Ok(callers)
}

/// Runs callers beside each other, by halving their list, each in a thread of its own where one can be started.
fn run_all<R: Threads + Wait + Sync, F: Fuse + Send>(
    rt: &R,
    alloc: Global,
    store: &Store,
    script: &Script,
    callers: &mut [Caller<F>],
)
    requires ready { All (IsReady F.fused store.now script.now) callers.old }
    requires for_geo { IsFor store.now.geo script.now }
    ensures { HavePerformed F.fused store.now script.now callers.old callers.new }
{
    let threads = callers.len();
    if threads == 0 {
        return;
    }
    thread::for_each_mut(
        rt,
        callers,
        threads,
        &|_, caller: &mut Caller<F>|
            requires { IsReady F.fused store.now script.now caller.now × IsFor store.now.geo script.now }
            ensures { Performs F.fused store.entry.now script.entry.now caller.entry.now caller.exit.now }
        { caller.perform(rt, alloc, store, script) },
    );
}

/// What callers leave: their answers and ends, and whether memory was missing for one.
#[derive(Drop)]
struct Gathered {
    receipts: Vec<Receipt>,
    ends: Vec<CallerEnd>,
    starved: bool,
}

/// Whether memory was missing for a caller.
fn is_starved(halt: Option<(u32, Halt)>) -> bool
    ensures { result ≡ is_starved halt }
{
    matches!(halt, Some((_, Halt::NoMemory)))
}

/// Adds an end, if there is one. Takes memory.
fn push_end(ends: &mut Vec<CallerEnd>, end: Option<CallerEnd>) -> Result<(), NoMemory>
    ensures { OnOk result (ends.new.items ≡ with_end ends.old.items end) }
{
    if let Some(end) = end {
        ends.push(end)?;
    }
    Ok(())
}

/// Takes one caller more back: joins its pass, gives its gate back, and adds its answers. Takes memory.
fn take_back<G: GateMaker>(
    store: &Store,
    root: &mut Pass<Never>,
    script: &Script,
    caller: Caller<G::Gate>,
    gates: &mut G,
    all: &mut Gathered,
) -> Result<(), NoMemory>
    requires root { IsRootOf store.now root.old }
    requires performed { HasPerformed G.Gate.fused store.now script.now caller }
    requires small { caller.number < 64 }
    requires asks { asks script.now caller.number ≡ true }
    requires countable { CanCountDeaths (G.seen gates.old) }
    requires gathers { Gathers store.now script.now caller.number all.old root.old }
    ensures root { OnOk result (IsRootOf store.now root.new) }
    ensures gates { OnOk result (SameGates (G.seen gates.old) (G.seen gates.new)) }
    ensures gathers { OnOk result (Gathers store.now script.now (caller.number + 1) all.new root.new) }
{
    let end = caller.end();
    let Caller {
        pass,
        number,
        mut receipts,
        halt,
    } = caller;
    all.starved |= is_starved(halt);
    gates.back(number, store.join(root, pass));
    push_end(&mut all.ends, end)?;
    all.receipts.append(&mut receipts)?;
    Ok(())
}

/// Takes all callers back, in order. Takes memory.
fn gather<G: GateMaker>(
    alloc: Global,
    store: &Store,
    root: &mut Pass<Never>,
    script: &Script,
    mut callers: Vec<Caller<G::Gate>>,
    gates: &mut G,
) -> Result<Gathered, NoMemory>
    requires root { IsRootOf store.now root.old }
    requires made { HasJoined (askers_of script.now) [] root.old }
    requires keeps { RootKeeps store.now (λ segment. []) root.old }
    requires numbers { numbers callers.items ≡ askers_of script.now }
    requires performed { All (HasPerformed G.Gate.fused store.now script.now) callers.items }
    requires countable { CanCountDeaths (G.seen gates.old) }
    ensures root { IfOk result (λ all. IsRootOf store.now root.new) }
    ensures gates { IfOk result (λ all. SameGates (G.seen gates.old) (G.seen gates.new)) }
    ensures gathers { IfOk result (λ all. Gathers store.now script.now MAX_CALLERS all root.new) }
{
    let mut all = Gathered {
        receipts: Vec::new(alloc),
        ends: Vec::new(alloc),
        starved: false,
    };
    callers.reverse();
    while let Some(caller) = callers.pop() {
        take_back(store, root, script, caller, gates, &mut all)?;
    }
    Ok(all)
}

/// How many tiers a segment has beyond its first one.
fn extra_in(words: &Words, segment: u32) -> u32
    requires { segment < words.now.geo.segments }
    ensures { result ≡ linked_in words.now segment }
{
    let geo = *words.geo();
    let mut mem = FixedMem::new(words, segment);
    match chain(&mut mem, &geo) {
        Ok(chain) => chain.len - 1,
        Err(Dead) => unreachable!(),
    }
}

/// How many tiers a map has beyond one per segment, where they keep the allowance. Takes no memory.
pub fn extra_tiers(words: &Words) -> u32
    requires { sum (linked_of words.now) ≤ words.now.geo.extra }
    ensures { result ≡ sum (linked_of words.now) }
{
    let mut extra = 0;
    for segment in 0..words.geo().segments() {
        extra += extra_in(words, segment);
    }
    extra
}

/// The report of a run of which nobody died, from the words that it left. Takes memory.
fn report_of(alloc: Global, words: &Words, all: Gathered) -> Result<Report, NoMemory>
    requires { IsLawfulMap words.now }
    ensures { IfOk result (ReportsRun words.now all) }
{
    let map = contents(alloc, words)?;
    let extra = extra_tiers(words);
    let Gathered { receipts, ends, .. } = all;
    Ok(Report {
        receipts: ListOf::from_vec(receipts),
        ends: ListOf::from_vec(ends),
        found: ListOf::from_vec(Vec::new(alloc)),
        map: ListOf::from_vec(map),
        extra,
    })
}

/// Runs a script's callers beside each other over one shared store of these words, and reports what they were answered
/// and what the words are then. The words are lawful, the script was read for their geometry, and no gate of `gates`
/// can die. Takes memory: NoMemory where none is left, and no other error. It may wait, and no return is promised.
pub fn run_script<R: Threads + Wait + Sync, G: GateMaker>(
    rt: &R,
    alloc: Global,
    words: Words,
    script: &Script,
    kills: &[Kill],
    gates: &mut G,
) -> Result<Outcome, NoMemory>
    requires lawful { IsLawfulMap words }
    requires for_geo { IsFor words.geo script.now }
    requires no_kill { kills.now ≡ [] }
    requires never { NeverDies (G.seen gates.old) }
    requires countable { IsCountable (G.seen gates.old) }
    ensures geo { IfOk result (λ outcome. outcome.words.geo ≡ words.geo) }
    ensures explained { IfOk result (λ outcome. Explained words.geo (segment_in words) script.now kills.now (G.seen gates.old) (G.seen gates.new) outcome.report (segment_in outcome.words)) }
{
    let (store, mut root) = Store::start(alloc, words)?;
    let mut callers = callers_of(alloc, &store, &mut root, script, gates)?;
    run_all(rt, alloc, &store, script, callers.as_mut_slice());
    let all = gather(alloc, &store, &mut root, script, callers, gates)?;
    if all.starved {
        return Err(NoMemory);
    }
    let words = store.close(alloc, root)?;
    let report = report_of(alloc, &words, all)?;
    Ok(Outcome { report, words })
}
