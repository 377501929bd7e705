//! Laws of the lines of answers.
ghost use Rattle.std.specs.Prelude.{◌≡◌, ◌≢◌, false, true};
ghost use Rattle.hol_answers.specs.declared.refusal.Refusal.{Refusal};
ghost use Rattle.hol_answers.specs.declared.reply.Reply.{Reply};
ghost use Rattle.hol_answers.specs.Marks.{is_marked, tells_error};
ghost use Rattle.hol_answers.specs.Refusal.{refusal_line};
ghost use Rattle.hol_answers.specs.Reply.{is_refusal, line_of, reply_data};
ghost use Rattle.hol_answers.specs.Rising.{is_rising};

/// The members of an answer stand in byte order of their names, each once.
pub fn names_rise()
    ensures { (reply : Reply) → is_rising (reply_data reply) ≡ true }
{}

/// An answer has a member `error` exactly where it is a refusal.
pub fn refusals_told()
    ensures { (reply : Reply) → tells_error (reply_data reply) ≡ is_refusal reply }
{}

/// The name of the first member of a refusal's line tells that it is one.
pub fn refusals_marked()
    ensures { (refusal : Refusal) → is_marked (refusal_line refusal) ≡ true }
{}

/// The line of a refusal is the line of no other answer.
pub fn refusals_apart()
    ensures { (refusal : Refusal) (reply : Reply) → is_refusal reply ≡ false
        → line_of reply ≢ refusal_line refusal }
{}
