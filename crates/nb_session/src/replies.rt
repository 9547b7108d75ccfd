// What was answered, as a reply.
ghost use Rattle.std.specs.Prelude.{ℕ};
ghost use Rattle.nb_host.specs.Causes.{CountsDevice, FaultCount};
ghost use Rattle.nb_engine.specs.Replies.{done};
ghost use Rattle.nb_session.specs.Replies.{Replies};

use nb_host::Fault;
use nb_model::Reply;

/// The reply to a statement that answers nothing.
pub(crate) fn done(answer: Result<(), Fault>) -> Result<Reply, Fault>
    ensures reply { Replies done answer result }
    ensures cause { (before after : FaultCount) → CountsDevice answer before after → CountsDevice result before after }
{
    match answer {
        Ok(()) => Ok(Reply::Done),
        Err(fault) => Err(fault),
    }
}
