//! A store that is made, and how a call ends that opened none or stopped.
ghost use Rattle.std.specs.Prelude.{◌≡◌, ◌⊎◌, ◌≤◌, None, IsTrue};
ghost use Rattle.nova_outside.specs.Causes.{Rose};
ghost use Rattle.nova_outside.specs.History.{current};
ghost use Rattle.nova_journal.specs.Marks.{IsMark};
ghost use Rattle.nova_engine.specs.Ending.{DamageTold, EndsStopped, EndsUnopened, IsEndOfText, ReadyGiven, RefusalGiven, unread_end};
ghost use Rattle.nova_engine.specs.Seen.{seen};
ghost use Rattle.nova_engine.specs.Status.{IsInitEnd, IsSessionEnd, IsUnopenedEnd};
ghost use Rattle.nova_engine.specs.Told.{HasMark, InitRead, InitTold};

use crate::refused::refused_reply;
use crate::status::Status;
use crate::stop::Stop;
use crate::text::{Unread, read_text};
use nova_journal::marked;
use nova_outside::{Host, Source};
use nova_runner::{InitFault, OpenFault, Store, TextFault};
use nova_script::{Reply, send};
use std::alloc::Global;

/// Replies the line of a store that was made.
fn tell_ready<H: Host>(host: &mut H, store: &Store) -> Status
    ensures told { ReadyGiven H.is_honest store.now.flow result (seen H.Host host.old) (seen H.Host host.new) }
    ensures reply { result ≡ Status.ReplyFault → Rose (H.reply_faults host.old) (H.reply_faults host.new) }
    ensures disk_faults { H.disk_faults host.new ≡ H.disk_faults host.old }
{
    match send(
        host,
        &Reply::ready(store.channel_count(), store.task_count()),
    ) {
        Ok(()) => Status::Done,
        Err(_) => Status::ReplyFault,
    }
}

/// Replies why a text is refused.
fn tell_refused<H: Host>(host: &mut H, why: &TextFault) -> Status
    ensures told { RefusalGiven H.is_honest why.now result (seen H.Host host.old) (seen H.Host host.new) }
    ensures reply { result ≡ Status.ReplyFault → Rose (H.reply_faults host.old) (H.reply_faults host.new) }
    ensures disk_faults { H.disk_faults host.new ≡ H.disk_faults host.old }
{
    match send(host, &refused_reply(why)) {
        Ok(()) => Status::FlowRefused,
        Err(_) => Status::ReplyFault,
    }
}

/// Makes a store of a workflow's text, without versions, where none is there, and replies the
/// numbers of its channels and tasks; or why the text is refused.
fn make_store<H: Host>(alloc: Global, host: &mut H, text: &[u8]) -> Status
    requires unmarked { IsTrue H.is_honest → IsMark (current (H.history host.old)) None }
    ensures status { IsInitEnd result }
    ensures of_text { IsEndOfText result }
    ensures told { IsTrue H.is_honest → InitTold text.now result (seen H.Host host.old) (seen H.Host host.new) }
    ensures disk { result ≡ Status.DiskFault → Rose (H.disk_faults host.old) (H.disk_faults host.new) }
    ensures reply { result ≡ Status.ReplyFault → Rose (H.reply_faults host.old) (H.reply_faults host.new) }
{
    match Store::init(alloc, host, text) {
        Ok(store) => tell_ready(host, &store),
        Err(InitFault::Disk) => Status::DiskFault,
        Err(InitFault::Flow(why)) => tell_refused(host, &why),
        Err(InitFault::NoMemory) => Status::NoMemory,
    }
}

/// The status where the text wasn't read.
fn unread_status(why: Unread) -> Status
    ensures { result ≡ unread_end why }
{
    match why {
        Unread::Source => Status::ReadFault,
        Unread::NoMemory => Status::NoMemory,
    }
}

/// Reads a workflow's text from the source and makes its store, where none is there.
pub fn init<S: Source, H: Host>(alloc: Global, source: &mut S, host: &mut H) -> Status
    ensures status { IsInitEnd result }
    ensures there { result ≡ Status.StoreThere → IsTrue H.is_honest → HasMark (current (H.history host.old)) }
    ensures unread { result ≡ Status.StoreThere → source.new ≡ source.old }
    ensures left { IsTrue H.is_honest → HasMark (current (H.history host.old)) → source.new ≡ source.old }
    ensures told { IsTrue H.is_honest → InitRead result (S.left source.old) (S.left source.new) (seen H.Host host.old) (seen H.Host host.new) }
    ensures read { result ≡ Status.ReadFault → Rose (S.faults source.old) (S.faults source.new) }
    ensures disk { result ≡ Status.DiskFault → Rose (H.disk_faults host.old) (H.disk_faults host.new) }
    ensures reply { result ≡ Status.ReplyFault → Rose (H.reply_faults host.old) (H.reply_faults host.new) }
{
    match marked(host) {
        Err(_) => return Status::DiskFault,
        Ok(Some(_)) => return Status::StoreThere,
        Ok(None) => {}
    }
    match read_text(alloc, source) {
        Ok(text) => make_store(alloc, host, &text),
        Err(why) => unread_status(why),
    }
}

/// Replies where a file is damaged.
fn tell_damage<H: Host>(host: &mut H, file: u64, at: u64) -> Status
    ensures told { DamageTold H.is_honest file at result (seen H.Host host.old) (seen H.Host host.new) }
    ensures reply { result ≡ Status.ReplyFault → Rose (H.reply_faults host.old) (H.reply_faults host.new) }
    ensures disk_faults { H.disk_faults host.new ≡ H.disk_faults host.old }
    ensures reply_later { H.reply_faults host.old ≤ H.reply_faults host.new }
{
    match send(host, &Reply::damaged(file, at)) {
        Ok(()) => Status::Damaged,
        Err(_) => Status::ReplyFault,
    }
}

/// The status of a store that wasn't opened; of a damaged one the place is replied.
pub fn end_unopened<H: Host>(host: &mut H, fault: OpenFault) -> Status
    ensures status { IsUnopenedEnd result }
    ensures ends { EndsUnopened H.is_honest fault result (seen H.Host host.old) (seen H.Host host.new) }
    ensures disk { result ≡ Status.DiskFault → fault ≡ OpenFault.Disk }
    ensures reply { result ≡ Status.ReplyFault → Rose (H.reply_faults host.old) (H.reply_faults host.new) }
    ensures disk_faults { H.disk_faults host.new ≡ H.disk_faults host.old }
{
    match fault {
        OpenFault::Disk => Status::DiskFault,
        OpenFault::NoStore => Status::NoStore,
        OpenFault::Damaged { file, at } => tell_damage(host, file, at),
        OpenFault::NoMemory => Status::NoMemory,
    }
}

/// The status of a session that stopped; of a damaged file the place is replied.
pub fn end_stopped<H: Host>(host: &mut H, stop: Stop) -> Status
    ensures status { IsSessionEnd result }
    ensures ends { EndsStopped H.is_honest stop result (seen H.Host host.old) (seen H.Host host.new) }
    ensures disk { result ≡ Status.DiskFault → stop ≡ Stop.Disk }
    ensures reply { result ≡ Status.ReplyFault → (stop ≡ Stop.Reply) ⊎ Rose (H.reply_faults host.old) (H.reply_faults host.new) }
    ensures disk_faults { H.disk_faults host.new ≡ H.disk_faults host.old }
    ensures reply_later { H.reply_faults host.old ≤ H.reply_faults host.new }
{
    match stop {
        Stop::Disk => Status::DiskFault,
        Stop::Reply => Status::ReplyFault,
        Stop::Damaged { file, at } => tell_damage(host, file, at),
        Stop::Full { length: _ } => Status::Full,
        Stop::NoMemory => Status::NoMemory,
    }
}
