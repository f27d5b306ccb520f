// The lines that answer a script.
ghost use Rattle.std.specs.Prelude.{Some};
ghost use Rattle.std.specs.List.{flat_map};
ghost use Rattle.script.specs.Lines.{verdict_line, refusal_text, byte_text, reply_text, answer_text};

use report::lines::{Ended, Freedom};
use rules::faults::Fault;
use session::call::Reply;
use std::fmt;
use text::each::write_each;

// The word on a line, or the line that tells the refusal.
#[derive(Clone, Copy)]
struct VerdictLine<'a> {
    word: &'a str,
    verdict: Result<(), Fault>,
}

impl fmt::Display for VerdictLine<'_> {
    ghost output = { λ v. Some (verdict_line v.word.now v.verdict) };

    fn fmt<W: fmt::Write>(&self, f: &mut fmt::Formatter<W>) -> fmt::Result {
        match self.verdict {
            Ok(()) => writeln!(f, "{}", self.word),
            Err(fault) => writeln!(f, "{fault}"),
        }
    }
}

// The line that tells the refusal, or nothing.
#[derive(Clone, Copy)]
struct Refusal(Result<(), Fault>);

impl fmt::Display for Refusal {
    ghost output = { λ r. Some (refusal_text r.0) };

    fn fmt<W: fmt::Write>(&self, f: &mut fmt::Formatter<W>) -> fmt::Result {
        match self.0 {
            Ok(()) => Ok(()),
            Err(fault) => writeln!(f, "{fault}"),
        }
    }
}

// The refusals among verdicts.
#[derive(Clone, Copy)]
struct Refusals<'a>(&'a [Result<(), Fault>]);

impl fmt::Display for Refusals<'_> {
    ghost output = { λ rs. Some (flat_map refusal_text rs.0.now) };

    fn fmt<W: fmt::Write>(&self, f: &mut fmt::Formatter<W>) -> fmt::Result {
        write_each(f, self.0.iter().map(|verdict| Refusal(*verdict)))
    }
}

// A byte, behind a space.
#[derive(Clone, Copy)]
struct Spaced(u8);

impl fmt::Display for Spaced {
    ghost output = { λ b. Some (byte_text b.0) };

    fn fmt<W: fmt::Write>(&self, f: &mut fmt::Formatter<W>) -> fmt::Result {
        write!(f, " {}", self.0)
    }
}

// Bytes, each behind a space.
#[derive(Clone, Copy)]
struct Bytes<'a>(&'a [u8]);

impl fmt::Display for Bytes<'_> {
    ghost output = { λ bs. Some (flat_map byte_text bs.0.now) };

    fn fmt<W: fmt::Write>(&self, f: &mut fmt::Formatter<W>) -> fmt::Result {
        write_each(f, self.0.iter().map(|byte| Spaced(*byte)))
    }
}

// What tells a reply; the reply to a copy tells the bytes of its buffer too.
#[derive(Clone, Copy)]
struct ReplyLines<'a>(&'a Reply);

impl fmt::Display for ReplyLines<'_> {
    ghost output = { λ r. Some (reply_text r.0.now) };

    fn fmt<W: fmt::Write>(&self, f: &mut fmt::Formatter<W>) -> fmt::Result {
        match self.0 {
            Reply::Took(verdict) => {
                let verdict = VerdictLine {
                    word: "took",
                    verdict: *verdict,
                };
                write!(f, "{verdict}")
            }
            Reply::Free(freedom) => writeln!(f, "free {}", Freedom(*freedom)),
            Reply::Settled(settled) => write!(f, "{}", Ended(settled)),
            Reply::Copied(verdict, buffer) => {
                let verdict = VerdictLine {
                    word: "copied",
                    verdict: *verdict,
                };
                writeln!(f, "{verdict}buffer{}", Bytes(buffer.as_slice()))
            }
        }
    }
}

// Replies in their order.
#[derive(Clone, Copy)]
struct Replies<'a>(&'a [Reply]);

impl fmt::Display for Replies<'_> {
    ghost output = { λ rs. Some (flat_map reply_text rs.0.now) };

    fn fmt<W: fmt::Write>(&self, f: &mut fmt::Formatter<W>) -> fmt::Result {
        write_each(f, self.0.iter().map(ReplyLines))
    }
}

// The refusals among the verdicts on the makings of a sheet, its number of switches and of rules, and the replies.
#[derive(Clone, Copy)]
pub(crate) struct Answer<'a> {
    pub(crate) verdicts: &'a [Result<(), Fault>],
    pub(crate) switches: u16,
    pub(crate) rules: usize,
    pub(crate) replies: &'a [Reply],
}

impl fmt::Display for Answer<'_> {
    ghost output = { λ a. Some (answer_text a.verdicts.now a.switches a.rules a.replies.now) };

    fn fmt<W: fmt::Write>(&self, f: &mut fmt::Formatter<W>) -> fmt::Result {
        let refusals = Refusals(self.verdicts);
        let n = self.switches;
        let m = self.rules;
        let replies = Replies(self.replies);
        write!(f, "{refusals}sheet {n} {m}\n{replies}")
    }
}
