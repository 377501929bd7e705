//! The loop over the lines of a script.
ghost use Rattle.std.specs.Prelude.{◌≡◌, ◌<◌, ◌≤◌, ◌⊎◌, ℕ, List, [], Bool, true, Option, None, IfOk, IfErr, IfSome, OnErr, Some, Ok, IsErrOf};
ghost use Rattle.std.specs.Io.KnownBytes.{IsAtEnd};
ghost use Rattle.hol_io.specs.Causes.{Rose};
ghost use Rattle.hol_io.specs.Lines.{IsAhead, Takes, starts};
ghost use Rattle.hol_io.specs.Store.{Store};
ghost use Rattle.hol_io.specs.Turn.{EndsInput, HasLimits, IsEnded, LendsLine};
ghost use Rattle.hol_orders.specs.Order.{IsOrder};
ghost use Rattle.hollow_machine.specs.Kept.{IsResting};
ghost use Rattle.hollow_machine.specs.Puts.{MayPut, OrderPuts};
ghost use Rattle.hollow_machine.specs.Script.{longest_line};
ghost use Rattle.hollow_machine.specs.Step.{Step};
ghost use Rattle.hollow_script.specs.Asked.{AskedPuts, AskedStep, MeetsOrder};
ghost use Rattle.hollow_script.specs.Kept.{HaltsKept, KeepsEdits, KeepsNothing, KeepsReader, MovesKept, SameProducer};
ghost use Rattle.hollow_script.specs.Scripted.{AllAnswered, AllWritten, AnswersNext, AreTaken, AsksNext, HasGiven, HasReplied, HasStopped, IsAnswered, RepliesNext, ServesNext, TakesPast, TurnsNext, WritesReplies, WritesWaiting, longest_input};
ghost use Rattle.hollow_script.specs.Stopping.{LeavesStopped};

use crate::asked::{Asked, asked_by};
use crate::keep::Keep;
use crate::order::{answer, may_put};
use crate::script_stop::ScriptStop;
use crate::waiting::{put_answer, write_waiting};
use hol_answers::{MAX_LINE_BYTES, Refusal, Reply};
use hol_io::{BlobStore, Lines, Sink, Source, Turn};
use hol_orders::{Order, OrderReader};
use std::alloc::Global;

/// How many bytes an input has at most.
const MAX_INPUT_BYTES: u64 = 0x1_0000_0000;

/// Answers each line of the input over a store, and tells whether an answer is a refusal. Answers are written many at a
/// time, but what waits is written before an order that may put begins, and before more of the input is read; and the last
/// ones before it ends, unless the sink failed. So where it stops, the sink has the answers to some first lines, and the store is
/// the one behind them, or has besides the first puts of the next line (`LeavesStopped`). Where the source fails, the lines are
/// all that end in what was taken of the input. Where the store fails or memory is refused, all lines that were asked are answered, but the last of them, at which it
/// stopped: those that the reader of lines gave, which is kept.
pub fn run_script<I: Source, O: Sink, S: BlobStore>(
    alloc: Global,
    input: &mut I,
    out: &mut O,
    store: &mut S,
    keep: &mut Keep,
) -> Result<bool, ScriptStop>
    requires { KeepsNothing keep.old }
    ensures written { IfSome (I.left input.old) (λ bytes. IfSome (S.seen store.old).held (λ first. IfOk result
        (AllWritten bytes first (S.seen store.new).held keep.new (O.taken out.old) (O.taken out.new)))) }
    ensures stopped { IfSome (I.left input.old) (λ bytes. IfSome (S.seen store.old).held (λ first. IfErr result
        (LeavesStopped bytes first (I.left input.new) (S.seen store.new).held keep.new (O.taken out.old) (O.taken out.new)))) }
    ensures reading { KeepsReader keep.new }
    ensures edits { KeepsEdits keep.new }
    ensures replied { IfOk result (WritesReplies (O.taken out.old) (O.taken out.new)) }
    ensures ended { IfOk result (λ refused. IsAtEnd (I.left input.new)) }
    ensures source_fault { IsErrOf result ScriptStop.Source → Rose (I.faults input.old) (I.faults input.new) }
    ensures sink_fault { IsErrOf result ScriptStop.Sink → Rose (O.faults out.old) (O.faults out.new) }
    ensures store_fault { IsErrOf result ScriptStop.Store → Rose (S.seen store.old).faults (S.seen store.new).faults }
    ensures past { IsErrOf result ScriptStop.TooLong → TakesPast (I.left input.old) (I.left input.new) }
{
    let mut waiting = Vec::new(alloc);
    match answer_lines(alloc, input, out, store, keep, &mut waiting) {
        Ok(refused) => {
            write_waiting(&mut waiting, out)?;
            Ok(refused)
        }
        Err(stop) => match stop {
            ScriptStop::Sink => Err(ScriptStop::Sink),
            _ => {
                write_waiting(&mut waiting, out)?;
                Err(stop)
            }
        },
    }
}

// Answers each line of the input, and keeps the reader of lines. The last answers wait.
fn answer_lines<I: Source, O: Sink, S: BlobStore>(
    alloc: Global,
    input: &mut I,
    out: &mut O,
    store: &mut S,
    keep: &mut Keep,
    waiting: &mut Vec<u8>,
) -> Result<bool, ScriptStop>
    requires fresh { KeepsNothing keep.old }
    requires none_waits { waiting.old.items ≡ [] }
    ensures answered { IfSome (I.left input.old) (λ bytes. IfSome (S.seen store.old).held (λ first. IfOk result
        (AllAnswered bytes first (S.seen store.new).held keep.new (O.taken out.old) (O.taken out.new) waiting.new.items))) }
    ensures stops { IfSome (I.left input.old) (λ bytes. IfSome (S.seen store.old).held (λ first. IfErr result
        (HasStopped bytes first (I.left input.new) keep.new.lines (S.seen store.new).held keep.new (O.taken out.old) (O.taken out.new) waiting.new.items))) }
    ensures reading { KeepsReader keep.new }
    ensures edits { KeepsEdits keep.new }
    ensures replied { IfOk result (HasReplied (O.taken out.old) (O.taken out.new) waiting.new.items) }
    ensures ended { IfOk result (λ refused. IsAtEnd (I.left input.new)) }
    ensures source_fault { IsErrOf result ScriptStop.Source → Rose (I.faults input.old) (I.faults input.new) }
    ensures sink_fault { IsErrOf result ScriptStop.Sink → Rose (O.faults out.old) (O.faults out.new) }
    ensures later { O.faults out.old ≤ O.faults out.new }
    ensures store_fault { IsErrOf result ScriptStop.Store → Rose (S.seen store.old).faults (S.seen store.new).faults }
    ensures past { IsErrOf result ScriptStop.TooLong → TakesPast (I.left input.old) (I.left input.new) }
{
    let mut lines = Lines::new(alloc, MAX_LINE_BYTES as usize, MAX_INPUT_BYTES)?;
    let answered = answer_each(alloc, &mut lines, input, out, store, keep, waiting);
    keep.lines = Some(lines);
    answered
}

// Answers each line that the reader of lines gives of the input, at whose start it stands. The last answers wait.
fn answer_each<I: Source, O: Sink, S: BlobStore>(
    alloc: Global,
    lines: &mut Lines,
    input: &mut I,
    out: &mut O,
    store: &mut S,
    keep: &mut Keep,
    waiting: &mut Vec<u8>,
) -> Result<bool, ScriptStop>
    requires fresh { KeepsNothing keep.old }
    requires none_waits { waiting.old.items ≡ [] }
    requires starts { lines.old ≡ starts longest_line longest_input }
    requires ahead { (left : List ℕ) → IsAhead lines.old left left longest_input }
    ensures answered { IfSome (I.left input.old) (λ bytes. IfSome (S.seen store.old).held (λ first. IfOk result
        (AllAnswered bytes first (S.seen store.new).held keep.new (O.taken out.old) (O.taken out.new) waiting.new.items))) }
    ensures stops { IfSome (I.left input.old) (λ bytes. IfSome (S.seen store.old).held (λ first. IfErr result
        (HasStopped bytes first (I.left input.new) (Some lines.new) (S.seen store.new).held keep.new (O.taken out.old) (O.taken out.new) waiting.new.items))) }
    ensures reading { KeepsReader keep.new }
    ensures edits { KeepsEdits keep.new }
    ensures replied { IfOk result (HasReplied (O.taken out.old) (O.taken out.new) waiting.new.items) }
    ensures ended { IfOk result (λ refused. IsAtEnd (I.left input.new)) }
    ensures source_fault { IsErrOf result ScriptStop.Source → Rose (I.faults input.old) (I.faults input.new) }
    ensures sink_fault { IsErrOf result ScriptStop.Sink → Rose (O.faults out.old) (O.faults out.new) }
    ensures later { O.faults out.old ≤ O.faults out.new }
    ensures store_fault { IsErrOf result ScriptStop.Store → Rose (S.seen store.old).faults (S.seen store.new).faults }
    ensures past { IsErrOf result ScriptStop.TooLong → TakesPast (I.left input.old) (I.left input.new) }
{
    let mut orders = OrderReader::new(alloc);
    let mut refused = false;
    for _turn in 0..u64::MAX {
        let Some(also) = serve_next(alloc, lines, &mut orders, input, out, store, keep, waiting)?
        else {
            return Ok(refused);
        };
        refused |= also;
    }
    // An input has fewer lines than that.
    Err(ScriptStop::Memory)
}

// Answers the next line of the input, if there is one, puts the answer behind those that wait, and tells whether it is a
// refusal.
fn serve_next<I: Source, O: Sink, S: BlobStore>(
    alloc: Global,
    lines: &mut Lines,
    orders: &mut OrderReader,
    input: &mut I,
    out: &mut O,
    store: &mut S,
    keep: &mut Keep,
    waiting: &mut Vec<u8>,
) -> Result<Option<bool>, ScriptStop>
    requires resting { IfSome keep.old.producer IsResting }
    requires reading { KeepsReader keep.old }
    requires edits { KeepsEdits keep.old }
    requires at_end { IsEnded lines.old (I.left input.old) }
    ensures served { (bytes : List ℕ) (first : Store) (before : Option (List ℕ)) (refused : Bool)
        → IsAnswered bytes first (I.left input.old) (S.seen store.old).held lines.old keep.old before (O.taken out.old) waiting.old.items refused
        → ServesNext bytes first (I.left input.new) (S.seen store.new).held lines.new keep.new before (O.taken out.new) waiting.new.items refused result }
    ensures replied { (before : Option (List ℕ)) (refused : Bool) → HasReplied before (O.taken out.old) waiting.old.items refused
        → RepliesNext before (O.taken out.new) waiting.new.items refused result }
    ensures resting { IfSome keep.new.producer IsResting }
    ensures reading { KeepsReader keep.new }
    ensures edits { KeepsEdits keep.new }
    ensures takes { Takes (I.left input.old) (I.left input.new) lines.old.taken lines.new.taken }
    ensures limits { HasLimits lines.old lines.new }
    ensures at_end { IsEnded lines.new (I.left input.new) }
    ensures ended { IfOk result (λ also. also ≡ None → IsAtEnd (I.left input.new)) }
    ensures past { IsErrOf result ScriptStop.TooLong → lines.new.budget < lines.new.taken }
    ensures source_fault { IsErrOf result ScriptStop.Source → Rose (I.faults input.old) (I.faults input.new) }
    ensures source_later { I.faults input.old ≤ I.faults input.new }
    ensures sink_fault { IsErrOf result ScriptStop.Sink → Rose (O.faults out.old) (O.faults out.new) }
    ensures later { O.faults out.old ≤ O.faults out.new }
    ensures store_fault { IsErrOf result ScriptStop.Store → Rose (S.seen store.old).faults (S.seen store.new).faults }
    ensures store_later { (S.seen store.old).faults ≤ (S.seen store.new).faults }
{
    let Some(reply) = next_reply(alloc, lines, orders, input, out, store, keep, waiting)? else {
        return Ok(None);
    };
    let refused = reply.is_refusal();
    put_answer(alloc, reply, waiting, out)?;
    Ok(Some(refused))
}

// Answers the next line of the input, if there is one. Of what waits it writes all or nothing.
fn next_reply<I: Source, O: Sink, S: BlobStore>(
    alloc: Global,
    lines: &mut Lines,
    orders: &mut OrderReader,
    input: &mut I,
    out: &mut O,
    store: &mut S,
    keep: &mut Keep,
    waiting: &mut Vec<u8>,
) -> Result<Option<Reply>, ScriptStop>
    requires resting { IfSome keep.old.producer IsResting }
    requires reading { KeepsReader keep.old }
    requires edits { KeepsEdits keep.old }
    requires at_end { IsEnded lines.old (I.left input.old) }
    ensures answers { (bytes : List ℕ) (given : List (List ℕ)) (now : Store) → HasGiven bytes (I.left input.old) lines.old given
        → (S.seen store.old).held ≡ Some now
        → AnswersNext bytes given now (I.left input.new) lines.new keep.old (S.seen store.new).held keep.new result }
    ensures quiet { ((S.seen store.new).held ≡ (S.seen store.old).held) ⊎ (waiting.new.items ≡ []) }
    ensures put { WritesWaiting (O.taken out.old) (O.taken out.new) waiting.old.items waiting.new.items result }
    ensures resting { IfSome keep.new.producer IsResting }
    ensures reading { KeepsReader keep.new }
    ensures edits { KeepsEdits keep.new }
    ensures takes { Takes (I.left input.old) (I.left input.new) lines.old.taken lines.new.taken }
    ensures limits { HasLimits lines.old lines.new }
    ensures at_end { IsEnded lines.new (I.left input.new) }
    ensures ended { IfOk result (λ reply. reply ≡ None → IsAtEnd (I.left input.new)) }
    ensures past { IsErrOf result ScriptStop.TooLong → lines.new.budget < lines.new.taken }
    ensures source_fault { IsErrOf result ScriptStop.Source → Rose (I.faults input.old) (I.faults input.new) }
    ensures source_later { I.faults input.old ≤ I.faults input.new }
    ensures sink_fault { IsErrOf result ScriptStop.Sink → Rose (O.faults out.old) (O.faults out.new) }
    ensures later { O.faults out.old ≤ O.faults out.new }
    ensures store_fault { IsErrOf result ScriptStop.Store → Rose (S.seen store.old).faults (S.seen store.new).faults }
    ensures store_later { (S.seen store.old).faults ≤ (S.seen store.new).faults }
{
    let Some(asked) = next_asked(alloc, lines, orders, input, out, waiting)? else {
        return Ok(None);
    };
    Ok(Some(answer_asked(alloc, asked, out, store, keep, waiting)?))
}

// What the next line of the input asks for, if there is one. What waits is written before more of the input is read.
fn next_asked<I: Source, O: Sink>(
    alloc: Global,
    lines: &mut Lines,
    orders: &mut OrderReader,
    input: &mut I,
    out: &mut O,
    waiting: &mut Vec<u8>,
) -> Result<Option<Asked>, ScriptStop>
    requires at_end { IsEnded lines.old (I.left input.old) }
    ensures asks { (bytes : List ℕ) (given : List (List ℕ)) → HasGiven bytes (I.left input.old) lines.old given
        → AsksNext bytes given (I.left input.new) lines.new result }
    ensures order { IfOk result (λ asked. IfSome asked MeetsOrder) }
    ensures put { WritesWaiting (O.taken out.old) (O.taken out.new) waiting.old.items waiting.new.items result }
    ensures takes { Takes (I.left input.old) (I.left input.new) lines.old.taken lines.new.taken }
    ensures limits { HasLimits lines.old lines.new }
    ensures at_end { IsEnded lines.new (I.left input.new) }
    ensures ended { IfOk result (λ asked. asked ≡ None → IsAtEnd (I.left input.new)) }
    ensures past { IsErrOf result ScriptStop.TooLong → lines.new.budget < lines.new.taken }
    ensures source_fault { IsErrOf result ScriptStop.Source → Rose (I.faults input.old) (I.faults input.new) }
    ensures source_later { I.faults input.old ≤ I.faults input.new }
    ensures sink_fault { IsErrOf result ScriptStop.Sink → Rose (O.faults out.old) (O.faults out.new) }
    ensures later { O.faults out.old ≤ O.faults out.new }
    ensures no_store { IsErrOf result ScriptStop.Store → ⊥ }
{
    match next_turn(lines, input, out, waiting)? {
        Turn::Line => Ok(Some(asked_by(alloc, orders, lines.line())?)),
        Turn::Long => Ok(Some(Asked::Refused(Refusal::LineTooLong))),
        Turn::End => Ok(None),
        Turn::Over => Err(ScriptStop::TooLong),
    }
}

// The next turn of the input. What waits is written before more of the input is read, so that the source is as it was, or
// nothing waits.
fn next_turn<I: Source, O: Sink>(
    lines: &mut Lines,
    input: &mut I,
    out: &mut O,
    waiting: &mut Vec<u8>,
) -> Result<Turn, ScriptStop>
    requires at_end { IsEnded lines.old (I.left input.old) }
    ensures turns { (bytes : List ℕ) (given : List (List ℕ)) → HasGiven bytes (I.left input.old) lines.old given
        → IfOk result (TurnsNext bytes given (I.left input.new) lines.new) }
    ensures taken { (bytes : List ℕ) (given : List (List ℕ)) → HasGiven bytes (I.left input.old) lines.old given
        → IsErrOf result ScriptStop.Source → AreTaken bytes (I.left input.new) given }
    ensures none { (bytes : List ℕ) (given : List (List ℕ)) → HasGiven bytes (I.left input.old) lines.old given
        → OnErr result (HasGiven bytes (I.left input.new) lines.new given) }
    ensures waits { (input.new ≡ input.old) ⊎ (waiting.new.items ≡ []) }
    ensures put { WritesWaiting (O.taken out.old) (O.taken out.new) waiting.old.items waiting.new.items result }
    ensures line { IfOk result (λ turn. LendsLine lines.new (Ok turn)) }
    ensures ended { IfOk result (λ turn. EndsInput lines.new (I.left input.new) (Ok turn)) }
    ensures takes { Takes (I.left input.old) (I.left input.new) lines.old.taken lines.new.taken }
    ensures limits { HasLimits lines.old lines.new }
    ensures at_end { IsEnded lines.new (I.left input.new) }
    ensures source_fault { IsErrOf result ScriptStop.Source → Rose (I.faults input.old) (I.faults input.new) }
    ensures source_later { I.faults input.old ≤ I.faults input.new }
    ensures sink_fault { IsErrOf result ScriptStop.Sink → Rose (O.faults out.old) (O.faults out.new) }
    ensures later { O.faults out.old ≤ O.faults out.new }
    ensures others { IfErr result (λ stop. (stop ≡ ScriptStop.Memory) ⊎ ((stop ≡ ScriptStop.Source) ⊎ (stop ≡ ScriptStop.Sink))) }
{
    if let Some(turn) = lines.next_held() {
        return Ok(turn);
    }
    write_waiting(waiting, out)?;
    Ok(lines.next(input)?)
}

// Writes what waits where an order may put.
#[tactic(auto, using(crate::proofs::Replying::puts_none, crate::proofs::Asking::may_not))]
fn make_way<O: Sink>(order: &Order, out: &mut O, waiting: &mut Vec<u8>) -> Result<(), ScriptStop>
    ensures put { WritesWaiting (O.taken out.old) (O.taken out.new) waiting.old.items waiting.new.items result }
    ensures none { IfOk result (λ done. (MayPut order.now → ⊥) ⊎ (waiting.new.items ≡ [])) }
    ensures sink_fault { IsErrOf result ScriptStop.Sink → Rose (O.faults out.old) (O.faults out.new) }
    ensures later { O.faults out.old ≤ O.faults out.new }
    ensures others { IfErr result (λ stop. stop ≡ ScriptStop.Sink) }
{
    if may_put(order) {
        return Ok(write_waiting(waiting, out)?);
    }
    Ok(())
}

// Answers what is asked for. What waits is written before an order that may put begins.
fn answer_asked<O: Sink, S: BlobStore>(
    alloc: Global,
    asked: Asked,
    out: &mut O,
    store: &mut S,
    keep: &mut Keep,
    waiting: &mut Vec<u8>,
) -> Result<Reply, ScriptStop>
    requires order { MeetsOrder asked }
    requires resting { IfSome keep.old.producer IsResting }
    requires reading { KeepsReader keep.old }
    requires edits { KeepsEdits keep.old }
    ensures step { MovesKept (λ machine reply next. AskedStep machine asked reply next)
        (S.seen store.old).held keep.old (S.seen store.new).held keep.new result }
    ensures halts { HaltsKept (AskedPuts asked) (S.seen store.old).held keep.old (S.seen store.new).held result }
    ensures undone { OnErr result (SameProducer keep.old keep.new) }
    ensures quiet { ((S.seen store.new).held ≡ (S.seen store.old).held) ⊎ (waiting.new.items ≡ []) }
    ensures unput { IsErrOf result ScriptStop.Sink → (S.seen store.new).held ≡ (S.seen store.old).held }
    ensures put { WritesWaiting (O.taken out.old) (O.taken out.new) waiting.old.items waiting.new.items result }
    ensures resting { IfSome keep.new.producer IsResting }
    ensures reading { KeepsReader keep.new }
    ensures edits { KeepsEdits keep.new }
    ensures sink_fault { IsErrOf result ScriptStop.Sink → Rose (O.faults out.old) (O.faults out.new) }
    ensures later { O.faults out.old ≤ O.faults out.new }
    ensures store_fault { IsErrOf result ScriptStop.Store → Rose (S.seen store.old).faults (S.seen store.new).faults }
    ensures store_later { (S.seen store.old).faults ≤ (S.seen store.new).faults }
    ensures others { IfErr result (λ stop. (stop ≡ ScriptStop.Memory) ⊎ ((stop ≡ ScriptStop.Store) ⊎ (stop ≡ ScriptStop.Sink))) }
{
    match asked {
        Asked::Order(order) => {
            let answered = answer_order(alloc, &order, out, store, keep, waiting);
            drop(order);
            answered
        }
        Asked::Refused(refusal) => Ok(Reply::Refused(refusal)),
    }
}

// Answers an order. What waits is written before one that may put begins.
fn answer_order<O: Sink, S: BlobStore>(
    alloc: Global,
    order: &Order,
    out: &mut O,
    store: &mut S,
    keep: &mut Keep,
    waiting: &mut Vec<u8>,
) -> Result<Reply, ScriptStop>
    requires order { IsOrder order.now }
    requires resting { IfSome keep.old.producer IsResting }
    requires reading { KeepsReader keep.old }
    requires edits { KeepsEdits keep.old }
    ensures step { MovesKept (λ machine reply next. Step machine order.now reply next)
        (S.seen store.old).held keep.old (S.seen store.new).held keep.new result }
    ensures halts { HaltsKept (OrderPuts order.now) (S.seen store.old).held keep.old (S.seen store.new).held result }
    ensures undone { OnErr result (SameProducer keep.old keep.new) }
    ensures quiet { ((S.seen store.new).held ≡ (S.seen store.old).held) ⊎ (waiting.new.items ≡ []) }
    ensures unput { IsErrOf result ScriptStop.Sink → (S.seen store.new).held ≡ (S.seen store.old).held }
    ensures put { WritesWaiting (O.taken out.old) (O.taken out.new) waiting.old.items waiting.new.items result }
    ensures resting { IfSome keep.new.producer IsResting }
    ensures reading { KeepsReader keep.new }
    ensures edits { KeepsEdits keep.new }
    ensures sink_fault { IsErrOf result ScriptStop.Sink → Rose (O.faults out.old) (O.faults out.new) }
    ensures later { O.faults out.old ≤ O.faults out.new }
    ensures store_fault { IsErrOf result ScriptStop.Store → Rose (S.seen store.old).faults (S.seen store.new).faults }
    ensures store_later { (S.seen store.old).faults ≤ (S.seen store.new).faults }
    ensures others { IfErr result (λ stop. (stop ≡ ScriptStop.Memory) ⊎ ((stop ≡ ScriptStop.Store) ⊎ (stop ≡ ScriptStop.Sink))) }
{
    make_way(order, out, waiting)?;
    Ok(answer(alloc, order, store, keep)?)
}
