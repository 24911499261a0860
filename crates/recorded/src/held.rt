// The face with step records, for a caller that holds its log by value: the log goes in, and comes back where it is written. What is above these
// functions needs no proof by hand.
ghost use Rattle.meaning.specs.Session.{edits, undoes, keeps, count_after};
ghost use Rattle.session.specs.Calls.{paper_count, an_edit};
ghost use Rattle.recorded.specs.Played.{session, Promised};

use meaning::{Fact, Refusal, Step};

// What an edit hands back: the log afterwards, and the answer.
#[derive(Drop)]
pub struct Held {
    pub log: [Step; 64],
    pub answer: Result<usize, Refusal>,
}

pub fn edit(s: &mut [u8], log: [Step; 64], count: usize, fact: Fact, adds: bool) -> Held
    ensures { Promised (session s.old log count) (edits (an_edit fact adds)) result.answer (session s.new result.log (count_after count (paper_count result.answer))) }
{
    let mut log = log;
    let answer = super::edit(s, &mut log, count, fact, adds);
    Held { log, answer }
}

pub fn undo(s: &mut [u8], log: [Step; 64], count: usize) -> Result<usize, Refusal>
    ensures { Promised (session s.old log count) undoes result (session s.new log (count_after count (paper_count result))) }
{
    super::undo(s, &log, count)
}

pub fn keep(s: &[u8], log: [Step; 64], count: usize) -> Result<usize, Refusal>
    ensures { Promised (session s.now log count) keeps result (session s.now log (count_after count (paper_count result))) }
{
    super::keep(s, &log, count)
}
