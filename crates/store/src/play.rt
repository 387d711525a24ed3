// Playing a script of calls.
ghost use Rattle.std.specs.Prelude.{◌≡◌, IfOk, OnOk, MatchResult};
ghost use Rattle.std.specs.Result.{ForOk};
ghost use Rattle.store.specs.Model.{seen};
ghost use Rattle.store.specs.Runs.{answered, Shows, capped, Step, Played};
ghost use Rattle.store.specs.declared.calls.Answer.TheVariants as answers;

use crate::calls::{Answer, Call};
use crate::name::Name;
use crate::refusals::Refusal;
use crate::stores::Store;
use crate::tickets::{OpenTicket, WaitingTicket};
use device::Device;
use std::alloc::{AllocError, Global};

// What a call answers, by its result.
fn answer<X, F: FnOnce(X) -> Answer>(r: Result<X, Refusal>, f: F) -> Answer
    requires { ForOk r (F.pre f) }
    ensures { MatchResult r (λ x. F.post f x result) (λ why. result ≡ answers.Refused why) }
{
    r.map_or_else(Answer::Refused, f)
}

// What a call answers that has nothing to tell.
fn done(r: Result<(), Refusal>) -> Answer
    ensures { result ≡ answered (λ _. answers.Done) r }
{
    answer(r, |()| Answer::Done)
}

impl<D: Device> Store<D> {
    // A read, with a buffer for the words.
    fn step_read(
        &mut self,
        object: Name,
        offset: u64,
        length: u64,
        heap: Global,
    ) -> Result<Answer, AllocError>
        ensures { IfOk result (λ a. Shows object offset (capped length) (seen D.Device self.old) a (seen D.Device self.new)) }
    {
        let n = length.min(16385) as usize;
        let mut words = vec![in heap; 0u16; n]?;
        // By match: tried with `answer` and a closure that moves the words, the check proves neither
        // case, and by match it proves the refused one alone.
        match self.read(object, offset, words.as_mut_slice()) {
            Ok(()) => Ok(Answer::Shown(words)),
            Err(why) => Ok(Answer::Refused(why)),
        }
    }

    // One call.
    fn step(&mut self, call: &Call, heap: Global) -> Result<Answer, AllocError>
        ensures { IfOk result (λ a. Step call.now (seen D.Device self.old) a (seen D.Device self.new)) }
    {
        Ok(match call {
            Call::Format { tag } => answer(self.format(*tag), Answer::Named),
            Call::Create {
                index,
                entry,
                kind,
                tag,
            } => answer(self.create(*index, *entry, *kind, *tag), Answer::Named),
            Call::Preserve {
                index,
                entry,
                object,
            } => done(self.preserve(*index, *entry, *object)),
            Call::Delete { index, entry } => done(self.delete(*index, *entry)),
            Call::Retrieve { index, entry } => answer(self.retrieve(*index, *entry), Answer::Found),
            Call::Read {
                object,
                offset,
                length,
            } => self.step_read(*object, *offset, *length, heap)?,
            Call::Begin { object } => done(self.begin(*object).map(|OpenTicket { id: _ }| ())),
            Call::Stage {
                ticket,
                position,
                first,
                words,
            } => done(self.step_stage(*ticket, *position, *first, words)),
            Call::Clear { ticket, position } => done(self.step_clear(*ticket, *position)),
            Call::Commit { ticket } => answer(
                self.step_commit(*ticket),
                |(WaitingTicket { id: _ }, stores)| Answer::Counted(stores),
            ),
            Call::Settle { ticket } => answer(self.step_settle(*ticket), Answer::Counted),
            Call::Abandon { ticket } => done(self.step_abandon(*ticket)),
        })
    }

    /// Plays a script, call after call. Each answer is put at the end of the log.
    pub fn play(
        &mut self,
        calls: &[Call],
        log: &mut Vec<Answer>,
        heap: Global,
    ) -> Result<(), AllocError>
        ensures { OnOk result (Played (seen D.Device self.old) calls.now log.old.items log.new.items (seen D.Device self.new)) }
    {
        for call in calls {
            let answer = self.step(call, heap)?;
            log.push(answer)?;
        }
        Ok(())
    }
}
