// A session whose log is a lent slice of step records, document 01's own form.
#![tactic(auto)]

pub mod held; // held.rt: the same for a log held by value

ghost use Rattle.meaning.specs.Session.{edits, undoes, keeps, count_after};
ghost use Rattle.session.specs.Calls.{paper_count, an_edit};
ghost use Rattle.recorded.specs.Played.{session, Promised};

use meaning::{Fact, Refusal, Step};

pub fn edit(
    s: &mut [u8],
    log: &mut [Step],
    count: usize,
    fact: Fact,
    adds: bool,
) -> Result<usize, Refusal>
    ensures { Promised (session s.old log.old count) (edits (an_edit fact adds)) result (session s.new log.new (count_after count (paper_count result))) }
{
    session::edit(s, log, count, fact, adds)
}

pub fn undo(s: &mut [u8], log: &[Step], count: usize) -> Result<usize, Refusal>
    ensures { Promised (session s.old log.now count) undoes result (session s.new log.now (count_after count (paper_count result))) }
{
    session::undo(s, log, count)
}

pub fn keep(s: &[u8], log: &[Step], count: usize) -> Result<usize, Refusal>
    ensures { Promised (session s.now log.now count) keeps result (session s.now log.now (count_after count (paper_count result))) }
{
    session::keep(s, log, count)
}
