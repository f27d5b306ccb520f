// The calls of a session. Each says what it does, and that the law holds of it after whatever was called before.
ghost use Rattle.session_theory.specs.Session.{Happens, took, freedom_told, copied};
ghost use Rattle.session.specs.Ends.{settle_entry};
ghost use Rattle.session.specs.Sessions.{session_of};
ghost use Rattle.session.specs.Calls.{GoesOn};

use crate::ends::Settled;
use crate::events::{Answer, Event};
use crate::phases::Phase;
use crate::session::Session;
use crate::writing::write_values;
use rules::faults::{Cause, Fault, Layer};
use rules::kinds::RawKind;

#[tactic(auto, using(crate::proofs::Copied::lawfully), unfolding(session_theory::specs::Session::Happens))]
impl Session {
    // Takes a rule into the margin, which holds at most 64; the search then begins anew. What is refused alters nothing.
    pub fn take(&mut self, kind: RawKind, entries: &[i16]) -> Result<(), Fault>
        ensures happens { Happens (session_of self.old) (took kind entries.now result) (session_of self.new) }
        ensures lawful { GoesOn (session_of self.old) (took kind entries.now result) (session_of self.new) }
    {
        match self.answer(Event::Take(kind, entries)) {
            Answer::Took(reply) => reply,
            // A take is answered as a take, which the contract of `answer` says.
            Answer::Settled(_settled) => unreachable!(),
        }
    }

    // The number of free switches, absent where no setting keeps the parity rules that stand.
    pub fn freedom(&self) -> Option<usize>
        ensures happens { Happens (session_of self.now) (freedom_told result) (session_of self.now) }
        ensures lawful { GoesOn (session_of self.now) (freedom_told result) (session_of self.now) }
    {
        self.reduction.freedom()
    }

    // Goes on with the search for at most so many tries, from its beginning where it has not begun over the rules that stand.
    pub fn settle(&mut self, budget: u32) -> Settled
        ensures happens { Happens (session_of self.old) (settle_entry budget result) (session_of self.new) }
        ensures lawful { GoesOn (session_of self.old) (settle_entry budget result) (session_of self.new) }
    {
        match self.answer(Event::Settle(budget)) {
            // A settle is answered as a settle.
            Answer::Took(_reply) => unreachable!(),
            Answer::Settled(settled) => settled,
        }
    }

    // Writes the setting that was found to the front of the buffer, a byte for each switch. What is refused writes nothing.
    pub fn copy(&self, out: &mut [u8]) -> Result<(), Fault>
        ensures happens { Happens (session_of self.now) (copied out.old result out.new) (session_of self.now) }
        ensures lawful { GoesOn (session_of self.now) (copied out.old result out.new) (session_of self.now) }
    {
        if out.len() < usize::from(self.rules.switches) {
            return Err(Layer::Session.fault(Cause::ShortBuffer, 0, 0));
        }
        match self.standing {
            Phase::Found => {
                write_values(out, self.setting().values());
                Ok(())
            }
            Phase::Fresh | Phase::Underway | Phase::None => {
                Err(Layer::Session.fault(Cause::NothingFound, 0, 0))
            }
        }
    }
}
