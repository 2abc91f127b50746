//! Lists of questions and their answers.
ghost use Rattle.shm_model.specs.declared.acts.ShmAnswer.TheVariants as answer;
ghost use Rattle.std.specs.Prelude.{◌≡◌, ◌<◌, ◌++◌, ◌∷◌, [], vec_len, vec_capacity};

use crate::acts::{ShmAct, ShmAnswer, ShmEntry};
use flat_model::Reply;

/// Adds an entry, for which there is room.
pub fn note(entries: &mut Vec<ShmEntry>, process: u32, act: &ShmAct, given: &ShmAnswer)
    requires room { vec_len entries.old < vec_capacity entries.old }
    ensures { entries.new.items ≡ entries.old.items
        ++ record { process = process; act = act.now; answer = given.now } ∷ [] }
{
    // It is taken apart and made again: no proof is found of a call that moves an answer and names
    // no reply.
    let answer = match *given {
        ShmAnswer::Segment { object, length } => ShmAnswer::Segment { object, length },
        ShmAnswer::Attached { object, reply } => attached(object, &reply),
        ShmAnswer::Removed => ShmAnswer::Removed,
        ShmAnswer::Refused(fault) => ShmAnswer::Refused(fault),
    };
    let Ok(()) = entries.push(ShmEntry {
        process,
        act: *act,
        answer,
    }) else {
        unreachable!()
    };
}

/// The answer that a segment was to be mapped, with this reply.
pub fn attached(object: u32, reply: &Reply) -> ShmAnswer
    ensures { result ≡ answer.Attached object reply.now }
{
    ShmAnswer::Attached {
        object,
        reply: *reply,
    }
}
