//! Refusals: why a command changes nothing.
ghost use Rattle.std.specs.Prelude.{◌≡◌, ◌≤◌, length};
ghost use Rattle.nova_script.specs.Refusals.{refusal_text, detail_of, words_for};
ghost use Rattle.nova_script.specs.Replying.{Replies};

use crate::reply::{Reply, send};
use nova_outside::{Failed, Host};

/// Why a command was refused. A refused command changes nothing.
#[derive(Clone, Copy, Debug, PartialEq, Eq)]
pub enum Refusal {
    /// The first word is no command's.
    UnknownCommand,
    /// The number or the form of the words differs.
    WrongWords,
    UnknownChannel,
    UnknownTask,
    /// A load of a channel that a task writes.
    NotAnInputChannel,
    /// The first line of the load, from 1, that is no row.
    BadRow { line: u64 },
    /// The input ended before the line that ends the load.
    UnfinishedLoad,
    /// A tick below the last moment, which is told.
    ClockBack { moment: u64 },
    InFlight,
    NotInFlight,
    /// The command's line or a line of its rows is over the limit.
    LineTooLong,
    /// A chain of no interval of versions, or of one that no path joins.
    BadRange,
    /// The command isn't built yet.
    NotBuilt,
}

impl Refusal {
    /// What its line begins with.
    fn words(&self) -> &'static str
        ensures words { result.now ≡ words_for self.now }
        ensures short { length result.now ≤ 26 }
    {
        match self {
            Refusal::UnknownCommand => "no 1 unknown-command",
            Refusal::WrongWords => "no 2 wrong-words",
            Refusal::UnknownChannel => "no 3 unknown-channel",
            Refusal::UnknownTask => "no 4 unknown-task",
            Refusal::NotAnInputChannel => "no 5 not-an-input-channel",
            Refusal::BadRow { line: _ } => "no 6 bad-row",
            Refusal::UnfinishedLoad => "no 7 unfinished-load",
            Refusal::ClockBack { moment: _ } => "no 8 clock-back",
            Refusal::InFlight => "no 9 in-flight",
            Refusal::NotInFlight => "no 10 not-in-flight",
            Refusal::LineTooLong => "no 11 line-too-long",
            Refusal::BadRange => "no 12 bad-range",
            Refusal::NotBuilt => "no 90 not-built",
        }
    }

    /// The number behind these words.
    fn detail(&self) -> Option<u64>
        ensures { result ≡ detail_of self.now }
    {
        match self {
            Refusal::BadRow { line } => Some(*line),
            Refusal::ClockBack { moment } => Some(*moment),
            _ => None,
        }
    }
}

/// The line that tells a refusal.
pub fn refusal_line(refusal: &Refusal) -> Reply
    ensures { result ≡ refusal_text refusal.now }
{
    Reply::new(refusal.words())
        .maybe_number(refusal.detail())
        .end()
}

/// Refuses a command.
pub fn refuse<H: Host>(host: &mut H, refusal: &Refusal) -> Result<(), Failed>
    ensures { Replies H.Host host.old host.new (refusal_text refusal.now) result }
{
    let line = refusal_line(refusal);
    send(host, &line)
}
