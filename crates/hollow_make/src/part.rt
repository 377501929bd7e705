//! Whether the script goes on behind one of its parts.
ghost use Rattle.std.specs.Prelude.{◌≡◌, IfErr, IfOk, false};
ghost use Rattle.hol_answers.specs.Reply.{is_refusal};
ghost use Rattle.hollow_make.specs.Parts.{publishes};

use hol_answers::{Refusal, Reply};

/// Whether the answer of a part tells that a state was published; or why it is refused, where the script ends.
#[tactic(auto, using(crate::proofs::Ends::not_refused, crate::proofs::Ends::none_published))]
pub(crate) fn go_on(reply: Reply) -> Result<bool, Refusal>
    ensures answered { IfOk result (λ is_published. is_refusal reply ≡ false) }
    ensures published { IfOk result (λ is_published. is_published ≡ publishes reply) }
    ensures refused { IfErr result (λ refusal. reply ≡ Reply.Refused refusal) }
{
    match reply {
        Reply::Refused(refusal) => Err(refusal),
        Reply::Cycle { published, .. } => Ok(published),
        _ => Ok(false),
    }
}
