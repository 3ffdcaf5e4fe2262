//! Reply lines.
ghost use Rattle.std.specs.Prelude.{◌≡◌, ◌+◌, ◌≤◌, ◌++◌, ◌∷◌, [], length, decimal, codes};
ghost use Rattle.nova_script.specs.Replying.{Replies};
ghost use Rattle.nova_script.specs.Text.{◌␣◌, ended, with_name, with_number};
ghost use Rattle.std.specs.Option.{option_copied};
ghost use Rattle.nova_script.specs.Replies as line;

use arrayvec::ArrayString;
use itoa::Buffer;
use nova_outside::{Failed, Host};
use nova_value::Name;
use std::marker::Model;

/// A reply line with its newline.
#[derive(Debug, Drop)]
pub struct Reply {
    line: ArrayString<160>,
}

impl Model for Reply {
    ghost use Rattle.std.specs.Prelude.{ℕ, List};

    ghost Value = { List ℕ };

    ghost view = { λ r. r.line.bytes };
}

impl Reply {
    /// A line that begins with a text.
    pub(crate) fn new(text: &str) -> Reply
        requires { length text.now ≤ 160 }
        ensures line { result ≡ text.now }
        ensures length { length result ≤ length text.now }
    {
        let mut line = ArrayString::new();
        line.push_str(text);
        Reply { line }
    }

    /// A word more.
    pub(crate) fn word(self, text: &str) -> Reply
        requires { length self + length text.now + 1 ≤ 160 }
        ensures line { result ≡ self ␣ text.now }
        ensures length { length result ≤ length self + length text.now + 1 }
    {
        let mut line = self.line;
        line.push_str(" ");
        line.push_str(text);
        Reply { line }
    }

    /// A name more.
    pub(crate) fn name(self, name: &Name) -> Reply
        requires { length self + 65 ≤ 160 }
        ensures line { result ≡ self ␣ name.now }
        ensures length { length result ≤ length self + 65 }
    {
        self.word(name.text())
    }

    /// A number more, in decimal.
    pub(crate) fn number(self, n: u64) -> Reply
        requires { length self + 21 ≤ 160 }
        ensures line { result ≡ self ␣ decimal n }
        ensures length { length result ≤ length self + 21 }
    {
        let mut digits = Buffer::new();
        self.word(digits.format(n))
    }

    /// A number of at most three digits more.
    fn small(self, n: u8) -> Reply
        requires { length self + 4 ≤ 160 }
        ensures line { result ≡ self ␣ decimal n }
        ensures length { length result ≤ length self + 4 }
    {
        let mut digits = Buffer::new();
        self.word(digits.format(n))
    }

    /// A name more, where there is one.
    fn maybe_name(self, name: Option<&Name>) -> Reply
        requires { length self + 65 ≤ 160 }
        ensures line { result ≡ with_name self (option_copied name.entry) }
        ensures length { length result ≤ length self + 65 }
    {
        match name {
            Some(name) => self.name(name),
            None => self,
        }
    }

    /// A number more, where there is one.
    pub(crate) fn maybe_number(self, n: Option<u64>) -> Reply
        requires { length self + 21 ≤ 160 }
        ensures line { result ≡ with_number self n }
        ensures length { length result ≤ length self + 21 }
    {
        match n {
            Some(n) => self.number(n),
            None => self,
        }
    }

    /// The newline.
    pub(crate) fn end(self) -> Reply
        requires { length self + 1 ≤ 160 }
        ensures { result ≡ ended self }
    {
        let mut line = self.line;
        line.push_str("\n");
        Reply { line }
    }

    /// A load of a channel made this version.
    pub fn loaded(channel: &Name, version: u64) -> Reply
        ensures { result ≡ line.loaded channel.now version }
    {
        Reply::new("loaded").name(channel).number(version).end()
    }

    /// The clock stands at this moment.
    pub fn ticked(moment: u64) -> Reply
        ensures { result ≡ line.ticked moment }
    {
        Reply::new("ticked").number(moment).end()
    }

    /// A run of a task made this version of its output.
    pub fn ran(task: &Name, version: u64) -> Reply
        ensures { result ≡ line.ran task.now version }
    {
        Reply::new("ran").name(task).number(version).end()
    }

    /// An execution of a task began.
    pub fn began(task: &Name) -> Reply
        ensures { result ≡ line.began task.now }
    {
        Reply::new("began").name(task).end()
    }

    /// The execution of a task that was in flight was given up.
    pub fn dropped(task: &Name) -> Reply
        ensures { result ≡ line.dropped task.now }
    {
        Reply::new("dropped").name(task).end()
    }

    /// So many tasks were run.
    pub fn worked(count: u64) -> Reply
        ensures { result ≡ line.worked count }
    {
        Reply::new("worked").number(count).end()
    }

    /// A channel's newest version has a block from 0.
    pub fn compacted(channel: &Name, version: u64) -> Reply
        ensures { result ≡ line.compacted channel.now version }
    {
        Reply::new("compacted").name(channel).number(version).end()
    }

    /// A channel has a block from one version to another.
    pub fn chained(channel: &Name, from: u64, to: u64) -> Reply
        ensures { result ≡ line.chained channel.now from to }
    {
        Reply::new("chained")
            .name(channel)
            .number(from)
            .number(to)
            .end()
    }

    /// So many blocks of channels were dropped.
    pub fn collected(count: u64) -> Reply
        ensures { result ≡ line.collected count }
    {
        Reply::new("collected").number(count).end()
    }

    /// A channel's newest version has so many rows.
    pub fn shown(channel: &Name, version: u64, count: u64) -> Reply
        ensures { result ≡ line.shown channel.now version count }
    {
        Reply::new("shown")
            .name(channel)
            .number(version)
            .number(count)
            .end()
    }

    /// A block from 0 to a version.
    pub fn base(to: u64) -> Reply
        ensures { result ≡ line.base to }
    {
        Reply::new("base").number(to).end()
    }

    /// A block from a version to another.
    pub fn delta(from: u64, to: u64) -> Reply
        ensures { result ≡ line.delta from to }
    {
        Reply::new("delta").number(from).number(to).end()
    }

    /// A channel has so many blocks.
    pub fn listed(channel: &Name, count: u64) -> Reply
        ensures { result ≡ line.listed channel.now count }
    {
        Reply::new("listed").name(channel).number(count).end()
    }

    /// A store of so many channels and tasks was made.
    pub fn ready(channels: u32, tasks: u32) -> Reply
        ensures { result ≡ line.ready channels tasks }
    {
        Reply::new("ready")
            .number(channels as u64)
            .number(tasks as u64)
            .end()
    }

    /// A file of the store isn't as it has to be from this place on.
    pub fn damaged(file: u64, at: u64) -> Reply
        ensures { result ≡ line.damaged file at }
    {
        Reply::new("damaged").number(file).number(at).end()
    }

    /// A workflow's text is refused: the cause by its number and its word, and what it names.
    pub fn flow_refused(number: u8, word: &str, name: Option<&Name>) -> Reply
        requires { length word.now ≤ 20 }
        ensures { result ≡ line.flow_refused number word.now (option_copied name.entry) }
    {
        Reply::new("flow")
            .small(number)
            .word(word)
            .maybe_name(name)
            .end()
    }

    /// A task is refused: the cause by its number and its word, the task, and the channel that the
    /// cause names.
    pub fn task_refused(number: u8, word: &str, task: &Name, channel: Option<&Name>) -> Reply
        requires { length word.now ≤ 20 }
        ensures { result ≡ line.task_refused number word.now task.now (option_copied channel.entry) }
    {
        Reply::new("task")
            .small(number)
            .word(word)
            .name(task)
            .maybe_name(channel)
            .end()
    }

    /// A task's script is refused by its parser or planner: the fault by its number, and its place
    /// or statement.
    pub fn script_refused(task: &Name, part: &str, number: u8, place: Option<u64>) -> Reply
        requires { length part.now ≤ 20 }
        ensures { result ≡ line.script_refused task.now part.now number place }
    {
        Reply::new("script")
            .name(task)
            .word(part)
            .small(number)
            .maybe_number(place)
            .end()
    }

    /// Its bytes.
    pub fn bytes(&self) -> &[u8]
        ensures { result.now ≡ self.now }
    {
        self.line.as_str().as_bytes()
    }
}

/// Replies a line in one call of the host.
pub fn send<H: Host>(host: &mut H, reply: &Reply) -> Result<(), Failed>
    ensures { Replies H.Host host.old host.new reply.now result }
{
    host.reply(reply.bytes())
}
