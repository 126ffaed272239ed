//! What an audit finds, and the line that tells it.
ghost use Rattle.std.specs.Prelude.{◌≡◌, IfOk};
ghost use Rattle.zeus_audit.specs.Verdicts.{rule_text, verdict_text};

use std::alloc::Global;
use zeus_base::NoMemory;
use zeus_text::{append, write_counted, write_line_end, write_word};

/// What a line of a report has to keep. At each line the first rule that it breaks counts.
#[derive(Clone, Copy, Debug, PartialEq, Eq)]
pub enum Rule {
    /// The line is there, it is ended by byte 10, and it is of its shape.
    Form,
    /// A transaction has its point behind its begin, and one point alone.
    Point,
    /// A reply is what the transaction gives behind the points before it.
    Reply,
    /// A transaction is acknowledged behind its point, and once.
    Ack,
    /// The history lists the points in order.
    History,
    /// The state of a transaction fits its begin, its point and its acknowledgement.
    State,
    /// The owner is one of the replicas.
    Owner,
    /// A copy is at a replica, and neither older nor other than what the points leave.
    Copy,
}

/// What an audit finds.
#[derive(Clone, Copy, Debug, PartialEq, Eq)]
pub enum Verdict {
    /// Each line keeps its rules.
    Sound,
    /// The first line that breaks a rule, counted from 1, and the first rule that it breaks.
    Fails(u64, Rule),
}

/// The word for a rule.
#[tactic(auto, unfolding(crate::specs::Verdicts::rule_text))]
fn rule_text(rule: Rule) -> &'static [u8]
    ensures { result.now ≡ rule_text rule }
{
    match rule {
        Rule::Form => b"form",
        Rule::Point => b"point",
        Rule::Reply => b"reply",
        Rule::Ack => b"ack",
        Rule::History => b"history",
        Rule::State => b"state",
        Rule::Owner => b"owner",
        Rule::Copy => b"copy",
    }
}

/// The line `audit ok`, or `audit LINE RULE`.
///
/// # Errors
///
/// Memory ran out.
#[tactic(auto, unfolding(crate::specs::Verdicts::verdict_text))]
pub fn verdict_line(alloc: Global, verdict: &Verdict) -> Result<Vec<u8>, NoMemory>
    ensures { IfOk result (λ line. line.items ≡ verdict_text verdict.now) }
{
    let mut line = Vec::new(alloc);
    match verdict {
        Verdict::Sound => append(&mut line, b"audit ok")?,
        Verdict::Fails(number, rule) => {
            write_counted(&mut line, b"audit", *number)?;
            write_word(&mut line, rule_text(*rule))?;
        }
    }
    write_line_end(&mut line)?;
    Ok(line)
}
