//! Refutation logs.

ghost use Rattle.std.specs.Prelude.{◌≡◌, ◌≤◌, ◌↔◌, IsSome, IfSome, length, map};
ghost use Rattle.cnf_form.specs.Literals.{most, AreClauses};

use crate::clause::Clause;
use crate::cnf::MOST;
use sqlite_items::Items;

/// A line of a log: a clause, and the numbers of the clauses from which it follows by unit propagation, in order. The
/// clauses of the formula are numbered from 0, and those of the log go on.
#[derive(Debug, Drop)]
pub struct LogLine {
    pub clause: Clause,
    pub hints: Items<u32>,
}

impl LogLine {
    /// The line of this clause and these hints. It takes no memory.
    pub fn new(clause: Clause, hints: Vec<u32>) -> LogLine
        ensures clause { result.clause ≡ clause }
        ensures hints { result.hints ≡ hints.items }
    {
        LogLine {
            clause,
            hints: Items::from_vec(hints),
        }
    }

    /// The hints, in order.
    pub fn hints(&self) -> &[u32]
        ensures { result.now ≡ self.now.hints }
    {
        self.hints.as_slice()
    }
}

/// A log: at most 2,147,483,647 lines.
#[derive(Debug, Drop)]
pub struct Log {
    pub lines: Items<LogLine>,
    ghost few: { length lines ≤ most },
    ghost each: { AreClauses (map (λ line. line.clause) lines) },
}

impl Log {
    /// The log of these lines; `None` exactly where there are more than 2,147,483,647. It takes no memory, and one step
    /// a line.
    pub fn new(lines: Vec<LogLine>) -> Option<Log>
        ensures made { IsSome result ↔ (length lines.items ≤ most) }
        ensures lines { IfSome result (λ log. log.lines ≡ lines.items) }
    {
        let lines = Items::from_vec(lines);
        look_at_clauses(lines.as_slice());
        if lines.len() <= MOST as usize {
            Some(Log { lines })
        } else {
            None
        }
    }

    /// The lines, in order: line number 0 first.
    pub fn lines(&self) -> &[LogLine]
        ensures value { result.now ≡ self.now.lines }
        ensures few { length result.now ≤ most }
        ensures each { AreClauses (map (λ line. line.clause) result.now) }
    {
        self.lines.as_slice()
    }
}

// Looks at the clause of each line, so that all are known to be clauses.
fn look_at_clauses(lines: &[LogLine])
    ensures { AreClauses (map (λ line. line.clause) lines.now) }
{
    for line in lines {
        let _literals = line.clause.literals();
    }
}
