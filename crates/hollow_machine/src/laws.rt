//! Laws of the machine.
ghost use Rattle.std.specs.Prelude.{◌≡◌, ◌++◌, ℕ, List, Bool, if◌then◌else◌, true};
ghost use Rattle.hol_answers.specs.declared.refusal.Refusal.{Refusal};
ghost use Rattle.hol_answers.specs.declared.reply.Reply.{Reply};
ghost use Rattle.hol_answers.specs.declared.reply.Reply.TheVariants.{Refused};
ghost use Rattle.hollow_machine.specs.Left.{HasAll};
ghost use Rattle.hollow_machine.specs.Puts.{LinePuts};
ghost use Rattle.hollow_machine.specs.Script.{LineStep, Script};
ghost use Rattle.hollow_machine.specs.State.{Machine};

/// A line that is refused changes nothing.
pub fn refused_unchanged()
    ensures { (machine next : Machine) (line : List ℕ) (refusal : Refusal)
        → LineStep machine line (Refused refusal) next → next ≡ machine }
{}

/// What lines answer, and what others answer behind them, they answer together.
pub fn scripts_join()
    ensures { (machine between next : Machine) (lines others : List (List ℕ)) (text rest : List ℕ) (refused also : Bool)
        → Script machine lines text refused between → Script between others rest also next
        → Script machine (lines ++ others) (text ++ rest) (if refused then true else also) next }
{}

/// A line that is answered leaves the store as it was, or with all of its puts.
pub fn line_puts()
    ensures { (machine next : Machine) (line : List ℕ) (answer : Reply)
        → LineStep machine line answer next → HasAll (LinePuts line machine) machine.store next.store }
{}
