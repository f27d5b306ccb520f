// How events change a session.
ghost use Rattle.std.specs.Prelude.{◌≡◌, ◌+◌, ◌<◌, true, [], ◌∷◌, ◌++◌, Ok, vec_len, vec_capacity};
ghost use Rattle.rules.specs.declared.faults.Layer.TheVariants as layer;
ghost use Rattle.rules.specs.Checks.{checked};
ghost use Rattle.rules.specs.Lawful.{lawful};
ghost use Rattle.rules.specs.Views.{constraint};
ghost use Rattle.parity.specs.Reductions.{standing_rules};
ghost use Rattle.search_theory.specs.Courses.{begin};
ghost use Rattle.search.specs.Searches.{course_of};
ghost use Rattle.session_theory.specs.System.{system};
ghost use Rattle.session_theory.specs.Session.{joined};
ghost use Rattle.session.specs.declared.phases.Phase.TheVariants.{Fresh};
ghost use Rattle.session.specs.Phases.{Over};
ghost use Rattle.session.specs.Sessions.{session_of};
ghost use Rattle.session.specs.Calls.{Went, Admitted, Answers};

use crate::ends::{End, Settled};
use crate::events::{Answer, Event};
use crate::phases::Phase;
use crate::restarting::restart;
use crate::session::Session;
use parity::standing::Standing;
use rules::checks::check_rule;
use rules::faults::{Cause, Fault, Layer};
use rules::kinds::RawKind;
use rules::rule::Rule;

// Adds a rule, for which there is room.
fn add_rule(standing: &mut Standing, rule: Rule)
    requires lawful { lawful standing.old.switches (constraint rule) ≡ true }
    requires few { vec_len standing.old.rules < 2112 }
    requires room { vec_len standing.old.rules < vec_capacity standing.old.rules }
    ensures switches { standing.new.switches ≡ standing.old.switches }
    ensures rules { standing_rules standing.new ≡ standing_rules standing.old ++ (constraint rule ∷ []) }
    ensures len { vec_len standing.new.rules ≡ vec_len standing.old.rules + 1 }
    ensures cap { vec_capacity standing.new.rules ≡ vec_capacity standing.old.rules }
{
    standing.rules.push_reserved(rule);
}

impl Session {
    // Takes the rule into the margin; the search over the rules that stand then has not begun.
    fn join(&mut self, rule: Rule)
        requires lawful { lawful self.old.rules.switches (constraint rule) ≡ true }
        requires room { vec_len self.old.rules.rules < self.old.count + 64 }
        ensures { session_of self.new ≡ joined (session_of self.old) (constraint rule) }
    {
        add_rule(&mut self.rules, rule);
        self.reduction.reduce(&self.rules);
        self.standing = Phase::Fresh;
    }

    // Goes on with the search, which is over the rules that stand.
    fn go_on(&mut self, budget: u32) -> Settled
        requires { Over self.old.rules.switches (standing_rules self.old.rules) self.old.search.system }
        ensures { Went (session_of self.old) (course_of self.old.search) budget result (session_of self.new) }
    {
        let progress = self.search.go_on(budget);
        self.standing = Phase::from(progress.end);
        Settled {
            end: self.told(progress.end),
            tries: progress.tries,
        }
    }

    // Begins the search over the rules that stand, and goes on with it; where their parity rules contradict each other, it has ended.
    fn begin(&mut self, budget: u32) -> Settled
        requires { self.old.standing ≡ Fresh }
        ensures { Went (session_of self.old) (begin self.old.rules.switches (system self.old.rules.switches (standing_rules self.old.rules))) budget result (session_of self.new) }
    {
        match self.reduction.rows() {
            None => {
                self.standing = Phase::None;
                Settled {
                    end: End::None,
                    tries: 0,
                }
            }
            Some(rows) => {
                restart(&mut self.search, self.heap, &self.rules, rows);
                self.go_on(budget)
            }
        }
    }

    // Takes a lawful rule where the margin has room.
    fn join_with_room(&mut self, rule: Rule) -> Result<(), Fault>
        requires { lawful self.old.rules.switches (constraint rule) ≡ true }
        ensures { Admitted (session_of self.old) (Ok (constraint rule)) result (session_of self.new) }
    {
        if self.rules.rules.len() >= self.count + 64 {
            return Err(Layer::Session.fault(Cause::MarginFull, 0, 0));
        }
        self.join(rule);
        Ok(())
    }

    // Takes the rule that the kind and the entries name, where it passes its check and the margin has room.
    #[tactic(auto, using(rules::proofs::Lawfuls::checked_lawful))]
    fn admit(&mut self, kind: RawKind, entries: &[i16]) -> Result<(), Fault>
        ensures { Admitted (session_of self.old) (checked layer.Session 0 self.old.rules.switches kind entries.now) result (session_of self.new) }
    {
        let rule = check_rule(Layer::Session, 0, self.rules.switches, kind, entries)?;
        self.join_with_room(rule)
    }

    // Changes the session as its standing and the event have it: one match says what each does at each.
    pub(crate) fn answer(&mut self, event: Event) -> Answer
        ensures { Answers (session_of self.old) event.entry result (session_of self.new) }
    {
        match (self.standing, event) {
            (_, Event::Take(kind, entries)) => Answer::Took(self.admit(kind, entries)),
            (Phase::Fresh, Event::Settle(budget)) => Answer::Settled(self.begin(budget)),
            (Phase::Underway, Event::Settle(budget)) => Answer::Settled(self.go_on(budget)),
            (Phase::Found, Event::Settle(_budget)) => Answer::Settled(Settled {
                end: End::Found(self.setting()),
                tries: 0,
            }),
            (Phase::None, Event::Settle(_budget)) => Answer::Settled(Settled {
                end: End::None,
                tries: 0,
            }),
        }
    }
}
