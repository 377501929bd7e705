//! The top call: from the words of a command line to a status.
ghost use Rattle.std.specs.Prelude.{◌≡◌, ◌≢◌, ◌<◌, ◌≤◌, ◌⊎◌, ◌↔◌, ℕ, List, Bool, Option, None, map, string_bytes, IfErr, IfOk, IfSome, Some, IsSome, OnErr, OnSome, IsErrOf};
ghost use Rattle.std.specs.Io.KnownBytes.{IsAtEnd};
ghost use Rattle.hol_io.specs.Causes.{Rose};
ghost use Rattle.std.specs.Io.KnownBytes.{Appends};
ghost use Rattle.hol_io.specs.Store.{Store};
ghost use Rattle.hollow_machine.specs.State.{Machine};
ghost use Rattle.hollow_script.specs.Kept.{KeepsEdits, KeepsHistory, KeepsNothing, KeepsReader, machine_with};
ghost use Rattle.hollow_script.specs.Scripted.{AllWritten, TakesPast};
ghost use Rattle.written_laws.specs.Chain.{Chain};
ghost use Rattle.written_laws.specs.HoldsChain.{HoldsChain};
ghost use Rattle.hollow_top.specs.Command.{IsReading, Serves, WritesMade};
ghost use Rattle.hollow_top.specs.Headline.{AnswersTruly, LeavesChain, LeavesMadeChain, MakesChain};
ghost use Rattle.hollow_top.specs.Run.{AsksNothing, AskScript, AskToRead, EndsMake, Finishes, MakesPart, RunsPast, StopsMade, StopsScript, WritesPart, status_of};
ghost use Rattle.hollow_top.specs.Show.{Shows};
ghost use Rattle.hollow_top.specs.Stopping.{GainsFront, GainsRefusal, GainsRefusalLine, IsVerdict, Leaves};
ghost use Rattle.hollow_top.specs.Words.{Asks};

use crate::answer::write_reply;
use crate::head::head;
use crate::show::show;
use crate::stop::Stop;
use crate::words::{Command, command_of};
use hol_io::{BlobStore, Sink, Source};
use hollow_make::{Progress, make};
use hollow_script::{Keep, ScriptStop, run_script};
use std::alloc::Global;

/// Does what the words ask for: reads the input or the store, writes the answers' lines or the lines of the rows to `out`,
/// and gives the program's exit status.
///
/// | status | comes |
/// |---|---|
/// | 0 | all was written, and no line was a refusal |
/// | 1 | all was written, and a line was a refusal |
/// | 2 | exactly where the words ask for no command; nothing is read, written or put |
/// | 3 | the source failed, which comes only for `run`, and where its count of faults rose |
/// | 4 | the sink failed, which comes only where its count of faults rose |
/// | 5 | the store failed, which comes only where its count of faults rose |
/// | 6 | memory was refused; of the rows that `show` writes the sink may have the front |
/// | 7 | a byte past the first 2^32 bytes of the input came, which comes only for `run` |
///
/// `run` answers each line of the input, and what it keeps are the producer, the consumer and its history behind the last of them. `head` and `show` read
/// the store alone, and put nothing. `make` publishes a chain, checks it and keeps its producer; it reads no input, and it alone tells
/// its progress. The condition is that nothing is kept.
///
/// Where `run` stops, by 3 to 7, the answers to some first lines are written, and the store is the one behind them; by 5 and 6 it may
/// have besides the first puts of the next line, and these are all lines that were asked, or all but the last one (`Keep::lines`). By 3 these are all lines that
/// end in what was taken of the input. By 4 the sink has
/// besides a part of the next answer, and the store is the one behind that line. Where `make` stops, the store is the one behind some first cycles, or has besides the first puts of the next one. A store that
/// held a chain holds it then, with the states more that were published, and at most one more, which is there in part.
pub fn run<I: Source, O: Sink, S: BlobStore, P: Progress>(
    alloc: Global,
    words: &[String],
    input: &mut I,
    out: &mut O,
    store: &mut S,
    keep: &mut Keep,
    progress: &mut P,
) -> u8
    requires { KeepsNothing keep.old }
    ensures status { result ≤ 7 }
    ensures words { (result ≡ 2) ↔ AsksNothing (map string_bytes words.now) }
    ensures source_fault { result ≡ 3 → AskScript (map string_bytes words.now) × Rose (I.faults input.old) (I.faults input.new) }
    ensures sink_fault { result ≡ 4 → Rose (O.faults out.old) (O.faults out.new) }
    ensures store_fault { result ≡ 5 → Rose (S.seen store.old).faults (S.seen store.new).faults }
    ensures past { result ≡ 7 → RunsPast (map string_bytes words.now) (I.left input.old) (I.left input.new) }

    // No status but 0, 1 and 6 comes for a command where no count rises and the input is not too long.
    ensures complete { ¬ AsksNothing (map string_bytes words.now)
        → ¬ Rose (I.faults input.old) (I.faults input.new)
        → ¬ Rose (O.faults out.old) (O.faults out.new)
        → ¬ Rose (S.seen store.old).faults (S.seen store.new).faults
        → ¬ RunsPast (map string_bytes words.now) (I.left input.old) (I.left input.new) → (result < 2) ⊎ (result ≡ 6) }

    // Over any source and store, a sink that tells what it took gained the line of a refusal exactly at 1: as all that it
    // gained, for one answer, and as one of the lines, for `run`.
    ensures verdict { result < 2 → ¬ AskScript (map string_bytes words.now) → OnSome (O.taken out.old)
        ((result ≡ 1) ↔ GainsRefusal (O.taken out.old) (O.taken out.new)) }
    ensures script_verdict { result < 2 → AskScript (map string_bytes words.now) → OnSome (O.taken out.old)
        ((result ≡ 1) ↔ GainsRefusalLine (O.taken out.old) (O.taken out.new)) }

    // What is written, what the store then holds and what is kept, where the store tells what it holds, and for `run` the
    // source too.
    ensures answered { result < 2 → (AskScript (map string_bytes words.now) → IsSome (I.left input.old))
        → IfSome (S.seen store.old).held (λ held. Finishes (map string_bytes words.now) (I.left input.old) held
        (S.seen store.new).held keep.new (O.taken out.old) (O.taken out.new) result) }
    ensures ended { result < 2 → AskScript (map string_bytes words.now) → IsAtEnd (I.left input.new) }
    ensures part { result ≡ 4 → ¬ AskScript (map string_bytes words.now) → IfSome (S.seen store.old).held
        (λ held. WritesPart (map string_bytes words.now) (I.left input.old) held (S.seen store.new).held (O.taken out.old) (O.taken out.new)) }

    // The history that is kept is that of the machine, and leads to where the consumer stands: the machine's older states are read from both.
    ensures history { (held : Store) → KeepsHistory keep.new (machine_with held keep.new) }

    // What is kept for changes, where there is some, is that of the last state of the producer that is kept.
    ensures edits { KeepsEdits keep.new }

    // What is written, and what the store then holds, where `run` and `make` stop.
    ensures script_stopped { AskScript (map string_bytes words.now) → IfSome (I.left input.old) (λ bytes. IfSome (S.seen store.old).held (λ first.
        StopsScript bytes first (I.left input.new) (S.seen store.new).held keep.new (O.taken out.old) (O.taken out.new) result)) }
    ensures make_stopped { 2 < result → (seed rows cycles : ℕ) → Asks (map string_bytes words.now) (Command.Make seed rows cycles)
        → IfSome (S.seen store.old).held (λ first. StopsMade seed rows cycles first (S.seen store.new).held) }
    ensures make_silent { 4 < result → (seed rows cycles : ℕ) → Asks (map string_bytes words.now) (Command.Make seed rows cycles) → out.new ≡ out.old }

    // The headline: over a store that held a chain, each line is answered as is true of the chain, and the consumer sees a state of it.
    ensures headline { result < 2 → AskScript (map string_bytes words.now) → IfSome (I.left input.old) (λ bytes. IfSome (S.seen store.old).held (λ first.
        (chain : Chain) → HoldsChain first chain
        → AnswersTruly bytes first chain (S.seen store.new).held keep.new (O.taken out.old) (O.taken out.new))) }

    // So does `make` leave the chain, with the states more that its cycles published, and it keeps a producer of it.
    ensures made { result < 2 → (seed rows cycles : ℕ) → Asks (map string_bytes words.now) (Command.Make seed rows cycles)
        → IfSome (S.seen store.old).held (λ first. (chain : Chain) → HoldsChain first chain
        → MakesChain seed rows cycles first chain (S.seen store.new).held keep.new) }

    // And where they stop, a store that held a chain holds it, with the states more that were published, and at most one more.
    ensures chain { 2 < result → AskScript (map string_bytes words.now) → IfSome (I.left input.old) (λ bytes. IfSome (S.seen store.old).held (λ first.
        (chain : Chain) → HoldsChain first chain → LeavesChain bytes first chain (S.seen store.new).held)) }
    ensures made_chain { 2 < result → (seed rows cycles : ℕ) → Asks (map string_bytes words.now) (Command.Make seed rows cycles)
        → IfSome (S.seen store.old).held (λ first. (chain : Chain) → HoldsChain first chain → LeavesMadeChain seed rows cycles first chain (S.seen store.new).held) }

    // What words for `head`, `show` and `make`, and words for nothing, leave as it was.
    ensures input { ¬ AskScript (map string_bytes words.now) → input.new ≡ input.old }
    ensures held { AskToRead (map string_bytes words.now) → (S.seen store.new).held ≡ (S.seen store.old).held }
    ensures unput { AskToRead (map string_bytes words.now) → (S.seen store.new).puts ≡ (S.seen store.old).puts }
    ensures kept { AskToRead (map string_bytes words.now) → keep.new ≡ keep.old }
    ensures silent { AskToRead (map string_bytes words.now) → result ≡ 5 → out.new ≡ out.old }
    ensures stopped { AskToRead (map string_bytes words.now) → result ≡ 6 → (out.new ≡ out.old)
        ⊎ ((version : ℕ) × Asks (map string_bytes words.now) (Command.Show version) × IfSome (S.seen store.old).held
        (λ held. GainsFront (Shows held version) (O.taken out.old) (O.taken out.new))) }
    ensures untouched { result ≡ 2 → (out.new ≡ out.old) × (store.new ≡ store.old) }
{
    let Some(command) = command_of(words) else {
        return 2;
    };
    if let Command::Run = command {
        return serve_script(alloc, input, out, store, keep);
    }
    if let Command::Make { seed, rows, cycles } = command {
        return serve_make(alloc, seed, rows, cycles, out, store, keep, progress);
    }
    match serve(alloc, &command, out, store) {
        Ok(refused) => u8::from(refused),
        Err(Stop::Sink) => 4,
        Err(Stop::Store) => 5,
        Err(Stop::Memory) => 6,
    }
}

// Answers the lines of the input, and gives the status.
fn serve_script<I: Source, O: Sink, S: BlobStore>(
    alloc: Global,
    input: &mut I,
    out: &mut O,
    store: &mut S,
    keep: &mut Keep,
) -> u8
    requires { KeepsNothing keep.old }
    ensures ends { result < 2 → IfSome (I.left input.old) (λ bytes. IfSome (S.seen store.old).held (λ first. (refused : Bool)
        × AllWritten bytes first (S.seen store.new).held keep.new (O.taken out.old) (O.taken out.new) refused
        × (result ≡ status_of refused))) }
    ensures headline { result < 2 → IfSome (I.left input.old) (λ bytes. IfSome (S.seen store.old).held (λ first.
        (chain : Chain) → HoldsChain first chain
        → AnswersTruly bytes first chain (S.seen store.new).held keep.new (O.taken out.old) (O.taken out.new))) }
    ensures verdict { result < 2 → OnSome (O.taken out.old)
        ((result ≡ 1) ↔ GainsRefusalLine (O.taken out.old) (O.taken out.new)) }
    ensures reading { KeepsReader keep.new }
    ensures edits { KeepsEdits keep.new }
    ensures ended { result < 2 → IsAtEnd (I.left input.new) }
    ensures stopped { IfSome (I.left input.old) (λ bytes. IfSome (S.seen store.old).held (λ first.
        StopsScript bytes first (I.left input.new) (S.seen store.new).held keep.new (O.taken out.old) (O.taken out.new) result)) }
    ensures chain { 2 < result → IfSome (I.left input.old) (λ bytes. IfSome (S.seen store.old).held (λ first.
        (chain : Chain) → HoldsChain first chain → LeavesChain bytes first chain (S.seen store.new).held)) }
    ensures status { (result ≤ 7) × (result ≢ 2) }
    ensures source_fault { result ≡ 3 → Rose (I.faults input.old) (I.faults input.new) }
    ensures sink_fault { result ≡ 4 → Rose (O.faults out.old) (O.faults out.new) }
    ensures store_fault { result ≡ 5 → Rose (S.seen store.old).faults (S.seen store.new).faults }
    ensures past { result ≡ 7 → TakesPast (I.left input.old) (I.left input.new) }
{
    chain_laws::laws::true_script();
    chain_laws::laws::chain_is_kept();
    chain_laws::laws::stopped_script_keeps_chain();
    hol_answers::laws::refusals_apart();
    store.told_bytes();
    match run_script(alloc, input, out, store, keep) {
        Ok(any_refused) => u8::from(any_refused),
        Err(ScriptStop::Source) => 3,
        Err(ScriptStop::Sink) => 4,
        Err(ScriptStop::Store) => 5,
        Err(ScriptStop::Memory) => 6,
        Err(ScriptStop::TooLong) => 7,
    }
}

// Publishes a chain that is made of three numbers, checks it, writes the one line, and gives the status.
fn serve_make<O: Sink, S: BlobStore, P: Progress>(
    alloc: Global,
    seed: u32,
    rows: u32,
    cycles: u32,
    out: &mut O,
    store: &mut S,
    keep: &mut Keep,
    progress: &mut P,
) -> u8
    requires nothing { KeepsNothing keep.old }
    requires seed { seed ≤ 999999 }
    requires rows { rows ≤ 500000 }
    requires cycles { cycles ≤ 1000 }
    ensures ends { result < 2 → IfSome (S.seen store.old).held (λ first. EndsMake seed rows cycles first
        (S.seen store.new).held keep.new (O.taken out.old) (O.taken out.new) result) }
    ensures chain { result < 2 → IfSome (S.seen store.old).held (λ first. (chain : Chain) → HoldsChain first chain
        → MakesChain seed rows cycles first chain (S.seen store.new).held keep.new) }
    ensures reading { KeepsReader keep.new }
    ensures edits { KeepsEdits keep.new }
    ensures verdict { result < 2 → OnSome (O.taken out.old) ((result ≡ 1) ↔ GainsRefusal (O.taken out.old) (O.taken out.new)) }
    ensures part { result ≡ 4 → IfSome (S.seen store.old).held
        (λ first. MakesPart seed rows cycles first (S.seen store.new).held (O.taken out.old) (O.taken out.new)) }
    ensures stopped { 2 < result → IfSome (S.seen store.old).held (λ first. StopsMade seed rows cycles first (S.seen store.new).held) }
    ensures silent { 4 < result → out.new ≡ out.old }
    ensures left_chain { 2 < result → IfSome (S.seen store.old).held (λ first. (chain : Chain) → HoldsChain first chain
        → LeavesMadeChain seed rows cycles first chain (S.seen store.new).held) }
    ensures status { (result ≤ 6) × (result ≢ 2) × (result ≢ 3) }
    ensures sink_fault { result ≡ 4 → Rose (O.faults out.old) (O.faults out.new) }
    ensures store_fault { result ≡ 5 → Rose (S.seen store.old).faults (S.seen store.new).faults }
{
    chain_laws::laws::chain_is_kept();
    chain_laws::laws::make_keeps_chain();
    chain_laws::laws::stopped_make_keeps_chain();
    store.told_bytes();
    match make_line(alloc, seed, rows, cycles, out, store, keep, progress) {
        Ok(is_refusal) => u8::from(is_refusal),
        Err(Stop::Sink) => 4,
        Err(Stop::Store) => 5,
        Err(Stop::Memory) => 6,
    }
}

// Publishes a chain that is made of three numbers, checks it, writes the one line, and tells whether this is a refusal.
fn make_line<O: Sink, S: BlobStore, P: Progress>(
    alloc: Global,
    seed: u32,
    rows: u32,
    cycles: u32,
    out: &mut O,
    store: &mut S,
    keep: &mut Keep,
    progress: &mut P,
) -> Result<bool, Stop>
    requires nothing { KeepsNothing keep.old }
    requires seed { seed ≤ 999999 }
    requires rows { rows ≤ 500000 }
    requires cycles { cycles ≤ 1000 }
    ensures made { IfOk result (λ refused. IfSome (S.seen store.old).held (λ first. (text : List ℕ) × (next : Store)
        × WritesMade seed rows cycles first text refused (machine_with next keep.new) × ((S.seen store.new).held ≡ Some next)
        × Appends (O.taken out.old) (O.taken out.new) text)) }
    ensures reading { KeepsReader keep.new }
    ensures edits { KeepsEdits keep.new }
    ensures verdict { Leaves IsVerdict (O.taken out.old) (O.taken out.new) result }
    ensures part { IsErrOf result Stop.Sink → IfSome (S.seen store.old).held
        (λ first. MakesPart seed rows cycles first (S.seen store.new).held (O.taken out.old) (O.taken out.new)) }
    ensures stopped { OnErr result (IfSome (S.seen store.old).held (λ first. StopsMade seed rows cycles first (S.seen store.new).held)) }
    ensures silent { IfErr result (λ stop. (stop ≡ Stop.Sink → ⊥) → out.new ≡ out.old) }
    ensures sink_fault { IsErrOf result Stop.Sink → Rose (O.faults out.old) (O.faults out.new) }
    ensures store_fault { IsErrOf result Stop.Store → Rose (S.seen store.old).faults (S.seen store.new).faults }
{
    // The pattern names each field: nothing else is kept from line to line.
    let Keep {
        producer,
        edits: _,
        consumer: _,
        version: _,
        history: _,
        lines: _,
    } = keep;
    let reply = make(alloc, store, producer, seed, rows, cycles, progress)?;
    write_reply(alloc, reply, out)
}

// Writes what a command of one answer writes, and tells whether that is a refusal. It reads no input.
fn serve<O: Sink, S: BlobStore>(
    alloc: Global,
    command: &Command,
    out: &mut O,
    store: &mut S,
) -> Result<bool, Stop>
    requires { IsReading command.now }
    ensures served { (input : Option (List ℕ)) → IfSome (S.seen store.old).held (λ held. Serves input held command.now
        (S.seen store.new).held (O.taken out.old) (O.taken out.new) result) }
    ensures verdict { Leaves IsVerdict (O.taken out.old) (O.taken out.new) result }
    ensures sink_fault { IsErrOf result Stop.Sink → Rose (O.faults out.old) (O.faults out.new) }
    ensures store_fault { IsErrOf result Stop.Store → Rose (S.seen store.old).faults (S.seen store.new).faults }
    ensures held { (S.seen store.new).held ≡ (S.seen store.old).held }
    ensures unput { (S.seen store.new).puts ≡ (S.seen store.old).puts }
    ensures silent { IsErrOf result Stop.Store → out.new ≡ out.old }
    ensures stopped { IsErrOf result Stop.Memory → (out.new ≡ out.old)
        ⊎ ((version : ℕ) × (command.now ≡ Command.Show version) × IfSome (S.seen store.old).held
        (λ held. GainsFront (Shows held version) (O.taken out.old) (O.taken out.new))) }
{
    match command {
        Command::Head(blob) => {
            let reply = head(alloc, store, blob)?;
            write_reply(alloc, reply, out)
        }
        Command::Show(version) => show(alloc, *version, out, store),
        Command::Make { .. } | Command::Run => unreachable!(),
    }
}
