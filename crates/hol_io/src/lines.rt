//! The lines of an input, one after another.
ghost use Rattle.std.specs.Prelude.{◌≡◌, ◌≢◌, ℕ, ◌+◌, ◌<◌, ◌≤◌, List, Option, Ok, false, Some, None, length, take, drop, slice_index, IfOk, IfSome, OnErr, IsSome, MatchOption};
ghost use Rattle.std.specs.Io.KnownBytes.{IsAtEnd};
ghost use Rattle.hol_io.specs.Lines.{starts, IsOnePiece, IsAhead, IsOpen, Carries, Takes};
ghost use Rattle.hol_io.specs.Turn.{Tells, IsEnded, IsPieceTurn, IsPiece, LendsLine, EndsInput, HasLimits, bytes_to_go};
ghost use Rattle.hol_io.specs.Window.{HasReadCause};

use crate::source::{ReadFailed, Source};
use crate::window::Window;
use memchr::memchr;
use std::alloc::{AllocError, Global};
use std::marker::Model;

/// What came next of an input.
#[derive(Debug, Clone, Copy, PartialEq, Eq)]
pub enum Turn {
    /// The next line of one or more bytes, which `Lines::line` lends.
    Line,
    /// A line that is longer than allowed. It was passed over.
    Long,
    /// The source gave its end, and no line is left.
    End,
    /// A byte past the budget came, and no line that ends before it is left.
    Over,
}

/// Why no turn came.
#[derive(Debug, Clone, Copy, PartialEq, Eq)]
pub enum LineFault {
    /// The source failed. It comes only where the source's count of faults rose.
    Read,
    /// Memory was refused.
    Memory,
}

impl From<ReadFailed> for LineFault {
    ghost use Rattle.hol_io.specs.declared.lines.LineFault.TheVariants.{Read};

    ghost from_gives = { λ _ fault. fault ≡ Read };

    fn from(_error: ReadFailed) -> LineFault {
        LineFault::Read
    }
}

impl From<AllocError> for LineFault {
    ghost use Rattle.hol_io.specs.declared.lines.LineFault.TheVariants.{Memory};

    ghost from_gives = { λ _ fault. fault ≡ Memory };

    fn from(_error: AllocError) -> LineFault {
        LineFault::Memory
    }
}

// How the next piece of the input ends.
enum Piece {
    // At a byte 0A behind so many bytes.
    Ended(usize),
    // At the end of the input.
    Last,
    // Not within the budget.
    PastBudget,
}

/// The lines of a source, one after another: what stands between its bytes 0A and behind the last of
/// them, but for what has no bytes. The source is read a chunk at a time into one buffer.
#[derive(Debug, Drop)]
pub struct Lines {
    window: Window,
    // Whether the last turn was a line.
    lends: bool,
    // Whether the front of the next line was passed over.
    long: bool,
    line_max: usize,
    budget: u64,
    // How many bytes were taken within the budget.
    taken: u64,
    // Whether one more was taken.
    over: bool,
    // Whether the source gave its end. Nothing is read behind it.
    ended: bool,
}

impl Model for Lines {
    ghost use Rattle.std.specs.Prelude.{◌≡◌, ◌+◌, ◌≤◌, Some, None, true, if◌then◌else◌};
    ghost use Rattle.hol_io.specs.Lines.{Reading};

    ghost Value = { Reading };

    ghost view = { λ lines. record {
      line = (if lines.lends then Some lines.window.line else None);
      long = lines.long;
      pending = lines.window.pending;
      taken = lines.taken + (if lines.over then 1 else 0);
      line_max = lines.line_max;
      budget = lines.budget;
      ended = lines.ended;
    } };

    ghost invariant = { λ lines. (lines.taken ≤ lines.budget) × (lines.over ≡ true → lines.taken ≡ lines.budget) };
}

impl Lines {
    /// A reader of lines that stands at the start of an input. A line of more than `line_max` bytes is
    /// passed over, and no more than `budget` bytes and the one behind them are taken.
    #[tactic(auto, using(crate::proofs::Told::starts_ahead))]
    pub fn new(alloc: Global, line_max: usize, budget: u64) -> Result<Lines, AllocError>
        ensures starts { IfOk result (λ lines. lines ≡ starts line_max budget) }
        ensures ahead { IfOk result (λ lines. (left : List ℕ) → IsAhead lines left left budget) }
    {
        Ok(Lines {
            window: Window::new(alloc)?,
            lends: false,
            long: false,
            line_max,
            budget,
            taken: 0,
            over: false,
            ended: false,
        })
    }

    /// The line that the last turn gave, without its 0A.
    pub fn line(&self) -> &[u8]
        requires { IsSome self.now.line }
        ensures { self.now.line ≡ Some result.now }
    {
        self.window.line()
    }

    // Ends the next piece behind so many of the pending bytes, and passes over so many behind it.
    fn end_piece(&mut self, count: usize, behind: usize) -> Option<Turn>
        requires { count + behind ≤ length self.old.pending }
        ensures turn { IsPieceTurn self.old self.new (take count self.old.pending) result }
        ensures pending { self.new.pending ≡ drop (count + behind) self.old.pending }
        ensures long { self.new.long ≡ false }
        ensures taken { self.new.taken ≡ self.old.taken }
        ensures limits { HasLimits self.old self.new }
        ensures ended { self.new.ended ≡ self.old.ended }
    {
        let turn = if self.long || count > self.line_max {
            Some(Turn::Long)
        } else if count == 0 {
            None
        } else {
            Some(Turn::Line)
        };
        self.window.give(count, behind);
        self.long = false;
        self.lends = matches!(turn, Some(Turn::Line));
        turn
    }

    // Passes over the pending bytes where with them the line is too long.
    fn pass_long(&mut self)
        requires { IsOnePiece self.old.pending }
        ensures carries { (left : Option (List ℕ)) → Carries self.old left self.new left }
        ensures one { IsOnePiece self.new.pending }
        ensures shorter { length self.new.pending ≤ length self.old.pending }
        ensures short { length self.new.pending ≤ self.new.line_max }
        ensures line { self.new.line ≡ self.old.line }
        ensures taken { self.new.taken ≡ self.old.taken }
        ensures limits { HasLimits self.old self.new }
        ensures ended { self.new.ended ≡ self.old.ended }
    {
        let count = self.window.pending().len();
        if self.long || count > self.line_max {
            self.long = true;
            self.window.let_go(count);
        }
    }

    // Reads once. 0 comes only at the end of the source.
    fn read_on<I: Source>(&mut self, input: &mut I) -> Result<usize, LineFault>
        requires below { self.old.taken ≤ self.old.budget }
        requires short { length self.old.pending ≤ self.old.line_max }
        ensures cause { HasReadCause (I.faults input.old) (I.faults input.new) result }
        ensures carries { Carries self.old (I.left input.old) self.new (I.left input.new) }
        ensures takes { Takes (I.left input.old) (I.left input.new) self.old.taken self.new.taken }
        ensures ended { IfOk result (λ count. count ≡ 0 → (self.new.pending ≡ self.old.pending) × IsAtEnd (I.left input.new)) }
        ensures taken { IfOk result (λ count. self.new.taken ≡ self.old.taken + count) }
        ensures fails { OnErr result ((self.new.taken ≡ self.old.taken) × (self.new.pending ≡ self.old.pending)) }
        ensures to_go { bytes_to_go self.new ≡ bytes_to_go self.old }
        ensures front { take (length self.old.pending) self.new.pending ≡ self.old.pending }
        ensures line { self.new.line ≡ None }
        ensures limits { HasLimits self.old self.new }
        ensures stays { self.new.ended ≡ self.old.ended }
    {
        self.lends = false;
        let allowed = self.budget - self.taken;
        let count = self
            .window
            .read(input, allowed.saturating_add(1), self.line_max)?;
        if count as u64 > allowed {
            self.over = true;
            self.taken = self.budget;
            self.window.let_go_last();
        } else {
            self.taken += count as u64;
        }
        Ok(count)
    }

    // Finds the end of the next piece behind the front.
    fn next_piece<I: Source>(&mut self, input: &mut I) -> Result<Piece, LineFault>
        ensures cause { HasReadCause (I.faults input.old) (I.faults input.new) result }
        ensures carries { Carries self.old (I.left input.old) self.new (I.left input.new) }
        ensures takes { Takes (I.left input.old) (I.left input.new) self.old.taken self.new.taken }
        ensures piece { IfOk result (IsPiece self.new (I.left input.new)) }
        ensures to_go { bytes_to_go self.new ≤ bytes_to_go self.old }
        ensures line { self.old.line ≡ None → self.new.line ≡ None }
        ensures limits { HasLimits self.old self.new }
        ensures bound { self.new.taken ≤ self.new.budget + 1 }
        ensures stays { self.new.ended ≡ self.old.ended }
        ensures fails { OnErr result (IsOnePiece self.new.pending × (self.new.taken ≤ self.new.budget)) }
    {
        let mut searched = 0;
        loop {
            if let Some(count) = first_end(self.window.pending(), searched) {
                return Ok(Piece::Ended(count));
            }
            if self.over {
                return Ok(Piece::PastBudget);
            }
            self.pass_long();
            searched = self.window.pending().len();
            if self.read_on(input)? == 0 {
                return Ok(Piece::Last);
            }
        }
    }

    // What comes next of the lines of the input, which is read on as far as that takes; no line is lent, and the source has not given its end.
    #[tactic(auto, using(crate::proofs::Told::ends))]
    fn next_turn<I: Source>(&mut self, input: &mut I) -> Result<Turn, LineFault>
        requires line { self.old.line ≡ None }
        requires not_ended { self.old.ended ≡ false }
        ensures cause { HasReadCause (I.faults input.old) (I.faults input.new) result }
        ensures tells { Tells self.old (I.left input.old) self.new (I.left input.new) result }
        ensures takes { Takes (I.left input.old) (I.left input.new) self.old.taken self.new.taken }
        ensures line { LendsLine self.new result }
        ensures ended { EndsInput self.new (I.left input.new) result }
        ensures limits { HasLimits self.old self.new }
        ensures bound { self.new.taken ≤ self.new.budget + 1 }
        ensures at_end { IsEnded self.new (I.left input.new) }
        ensures fails { OnErr result (IsOpen self.new) }
    {
        loop {
            match self.next_piece(input)? {
                Piece::Ended(count) => {
                    if let Some(turn) = self.end_piece(count, 1) {
                        return Ok(turn);
                    }
                }
                Piece::Last => {
                    let count = self.window.pending().len();
                    let turn = self.end_piece(count, 0).unwrap_or(Turn::End);
                    self.ended = true;
                    return Ok(turn);
                }
                Piece::PastBudget => return Ok(Turn::Over),
            }
        }
    }

    /// What comes next of the lines of the input, where it can be told without reading on: a line ends in the bytes that
    /// were taken, or a byte past the budget was. `None` comes where neither is so, and then `next` has to read.
    pub fn next_held(&mut self) -> Option<Turn>
        ensures tells { (left : Option (List ℕ)) → MatchOption result (Carries self.old left self.new left)
            (λ turn. Tells self.old left self.new left (Ok turn)) }
        ensures none { result ≡ None → IsOnePiece self.new.pending × (self.new.taken ≤ self.new.budget) }
        ensures line { MatchOption result (self.new.line ≡ None) (λ turn. LendsLine self.new (Ok turn)) }
        ensures ended { (left : Option (List ℕ)) → IfSome result (λ turn. EndsInput self.new left (Ok turn)) }
        ensures taken { self.new.taken ≡ self.old.taken }
        ensures limits { HasLimits self.old self.new }
        ensures stays { self.new.ended ≡ self.old.ended }
    {
        self.lends = false;
        self.held_turn()
    }

    // What comes next of the lines of the input where the bytes that were taken tell it, or `None`; no line is lent.
    fn held_turn(&mut self) -> Option<Turn>
        requires { self.old.line ≡ None }
        ensures tells { (left : Option (List ℕ)) → MatchOption result (Carries self.old left self.new left)
            (λ turn. Tells self.old left self.new left (Ok turn)) }
        ensures none { result ≡ None → IsOnePiece self.new.pending × (self.new.taken ≤ self.new.budget) }
        ensures line { MatchOption result (self.new.line ≡ None) (λ turn. LendsLine self.new (Ok turn)) }
        ensures ended { (left : Option (List ℕ)) → IfSome result (λ turn. EndsInput self.new left (Ok turn)) }
        ensures taken { self.new.taken ≡ self.old.taken }
        ensures limits { HasLimits self.old self.new }
        ensures stays { self.new.ended ≡ self.old.ended }
    {
        while let Some(count) = self.next_end() {
            if let Some(turn) = self.end_piece(count, 1) {
                return Some(turn);
            }
        }
        self.past_budget()
    }

    // Whether a byte past the budget was taken.
    fn past_budget(&self) -> Option<Turn>
        ensures { MatchOption result (self.now.taken ≤ self.now.budget) (λ turn. (turn ≡ Turn.Over) × (self.now.budget < self.now.taken)) }
    {
        if self.over { Some(Turn::Over) } else { None }
    }

    // Where the next piece ends in the bytes that were taken.
    fn next_end(&self) -> Option<usize>
        ensures { MatchOption result (IsOnePiece self.now.pending) (λ count. (left : Option (List ℕ)) → IsPiece self.now left (Piece.Ended count)) }
    {
        first_end(self.window.pending(), 0)
    }

    /// What comes next of the lines of the input. `Long` comes where a line has more than `line_max`
    /// bytes, `End` where no line is left and the source gave its end, and `Over` where a byte past the
    /// budget was taken and no line that ends before it is left.
    ///
    /// `Read` comes only where the source's count of faults rose. After a fault the lines that were not
    /// given are still ahead, and a later call goes on with them: none of them ends in the bytes that were taken. Behind
    /// its end the source is not read again.
    pub fn next<I: Source>(&mut self, input: &mut I) -> Result<Turn, LineFault>
        requires { IsEnded self.old (I.left input.old) }
        ensures cause { HasReadCause (I.faults input.old) (I.faults input.new) result }
        ensures tells { Tells self.old (I.left input.old) self.new (I.left input.new) result }
        ensures takes { Takes (I.left input.old) (I.left input.new) self.old.taken self.new.taken }
        ensures line { LendsLine self.new result }
        ensures ended { EndsInput self.new (I.left input.new) result }
        ensures limits { HasLimits self.old self.new }
        ensures at_end { IsEnded self.new (I.left input.new) }
        ensures fails { OnErr result (IsOpen self.new) }
    {
        self.lends = false;
        if self.ended {
            return Ok(Turn::End);
        }
        self.next_turn(input)
    }
}

// Where the first byte 0A is, of which there is none before place `from`.
fn first_end(bytes: &[u8], from: usize) -> Option<usize>
    requires within { from ≤ length bytes.now }
    requires before { IsOnePiece (take from bytes.now) }
    ensures { MatchOption result (IsOnePiece bytes.now)
        (λ count. (count < length bytes.now) × (slice_index bytes.now count ≡ 10) × IsOnePiece (take count bytes.now)) }
{
    match memchr(b'\n', &bytes[from..]) {
        Some(count) => Some(from + count),
        None => None,
    }
}
