//! The top call: the words, and the loop that reads the input.
ghost use Rattle.std.specs.Prelude.{◌≡◌, ◌+◌, ◌<◌, ◌≤◌, ◌^◌, [], List, ℕ, Some, None, length, map, string_bytes, take, IsTrue, IfOk, MatchResult};
ghost use Rattle.std.specs.Io.KnownBytes.{Consumes, Keeps, IsAtEnd};
ghost use Rattle.nova_outside.specs.Causes.{HasCause, Rose};
ghost use Rattle.nova_outside.specs.History.{current};
ghost use Rattle.nova_journal.specs.Marks.{IsMark};
ghost use Rattle.nova_engine.specs.Damage.{IsBadRead, IsReadIn, TellsDamage};
ghost use Rattle.nova_engine.specs.Call.{AsksInit, AsksNothing, AsksRun};
ghost use Rattle.nova_engine.specs.Loading.{line_count};
ghost use Rattle.nova_engine.specs.Moves.{EndsWhole};
ghost use Rattle.nova_engine.specs.Seen.{seen};
ghost use Rattle.nova_engine.specs.Sessions.{Ran, Took};
ghost use Rattle.nova_engine.specs.Status.{EndsBy, IsInitEnd, IsRunEnd, IsSessionEnd};
ghost use Rattle.nova_engine.specs.Told.{FilesTold, HasMark, InitRead, RunTold, Tells};

use crate::call::{Call, call_of};
use crate::lines::{finish, take_piece};
use crate::opening::{end_stopped, end_unopened, init};
use crate::reader::{LineReader, Session};
use crate::status::Status;
use nova_outside::{Failed, Host, Source};
use nova_runner::{Store, bad_stores};
use nova_script::HeldLine;
use std::alloc::Global;

/// The most bytes that a session may have.
const LIMIT: u64 = 1 << 40;

/// The most bytes that are taken at once.
const PIECE: usize = 65536;

/// How much may be taken at once behind so many bytes: never more than one byte past the limit.
fn room_behind(taken: u64) -> usize
    requires { taken ≤ 2 ^ 40 }
    ensures some { 0 < result }
    ensures fits { result ≤ 65536 }
    ensures limit { taken + result ≤ 2 ^ 40 + 1 }
{
    let left = LIMIT + 1 - taken;
    if left < PIECE as u64 {
        left as usize
    } else {
        PIECE
    }
}

/// Takes the next bytes into the buffer.
fn fill<S: Source>(source: &mut S, buffer: &mut [u8], taken: u64) -> Result<usize, Failed>
    requires limit { taken ≤ 2 ^ 40 }
    requires size { length buffer.old ≡ 65536 }
    ensures size { length buffer.new ≡ 65536 }
    ensures bound { IfOk result (λ n. (n ≤ 65536) × (taken + n ≤ 2 ^ 40 + 1)) }
    ensures bytes { MatchResult result (λ n. Consumes (S.left source.old) (S.left source.new) (take n buffer.new)) (λ _. Keeps (S.left source.old) (S.left source.new)) }
    ensures end { IfOk result (λ n. n ≡ 0 → IsAtEnd (S.left source.new)) }
    ensures cause { HasCause (S.faults source.old) (S.faults source.new) result }
{
    let room = room_behind(taken);
    source.take(&mut buffer[..room])
}

/// A session before its first byte.
fn opened(alloc: Global, store: Store) -> LineReader
    ensures store { result.session.store ≡ store }
    ensures load { result.session.load ≡ None }
    ensures held { result.held ≡ [] }
{
    LineReader {
        session: Session { store, load: None },
        held: HeldLine::new(alloc),
    }
}

/// The status of a session whose input ended.
fn end_whole<H: Host>(reader: LineReader, alloc: Global, host: &mut H) -> Status
    requires room { line_count reader.session.load < 2 ^ 63 }
    requires in_host { IsReadIn H.is_honest reader.session.store (H.history host.old) }
    ensures status { IsSessionEnd result }
    ensures told { EndsWhole H.is_honest reader result (seen H.Host host.old) (seen H.Host host.new) }
    ensures damage { IsTrue H.is_honest → result ≡ Status.Damaged → TellsDamage (IsBadRead (current (H.history host.new))) (H.history host.old) (H.history host.new) }
    ensures disk { result ≡ Status.DiskFault → Rose (H.disk_faults host.old) (H.disk_faults host.new) }
    ensures reply { result ≡ Status.ReplyFault → Rose (H.reply_faults host.old) (H.reply_faults host.new) }
    ensures disk_later { H.disk_faults host.old ≤ H.disk_faults host.new }
    ensures reply_later { H.reply_faults host.old ≤ H.reply_faults host.new }
{
    match finish(reader, alloc, host) {
        Ok(()) => Status::Done,
        Err(stop) => end_stopped(host, stop),
    }
}

/// Reads a session from the source and takes its commands, from what the store stands for.
fn run_session<S: Source, H: Host>(
    store: Store,
    alloc: Global,
    source: &mut S,
    host: &mut H,
) -> Status
    requires in_host { IsReadIn H.is_honest store (H.history host.old) }
    ensures status { IsSessionEnd result }
    ensures read { result ≡ Status.ReadFault → Rose (S.faults source.old) (S.faults source.new) }
    ensures disk { result ≡ Status.DiskFault → Rose (H.disk_faults host.old) (H.disk_faults host.new) }
    ensures reply { result ≡ Status.ReplyFault → Rose (H.reply_faults host.old) (H.reply_faults host.new) }
    ensures damage { IsTrue H.is_honest → result ≡ Status.Damaged → TellsDamage (IsBadRead (current (H.history host.new))) (H.history host.old) (H.history host.new) }
    ensures ran { (input : List ℕ) → S.left source.old ≡ Some input → Ran result H.is_honest store input (S.left source.new) (seen H.Host host.old) (seen H.Host host.new) }
{
    let mut reader = opened(alloc, store);
    let mut buffer = [0; PIECE];
    let mut taken: u64 = 0;
    while taken <= LIMIT {
        let Ok(count) = fill(source, &mut buffer, taken) else {
            return Status::ReadFault;
        };
        if count == 0 {
            return end_whole(reader, alloc, host);
        }
        reader = match take_piece(reader, alloc, host, &buffer[..count]) {
            Ok(next) => next,
            Err(stop) => return end_stopped(host, stop),
        };
        taken += count as u64;
    }
    Status::InputTooLong
}

/// Opens the store and takes a session.
fn run<S: Source, H: Host>(alloc: Global, source: &mut S, host: &mut H) -> Status
    ensures status { IsRunEnd result }
    ensures read { result ≡ Status.ReadFault → Rose (S.faults source.old) (S.faults source.new) }
    ensures disk { result ≡ Status.DiskFault → Rose (H.disk_faults host.old) (H.disk_faults host.new) }
    ensures reply { result ≡ Status.ReplyFault → Rose (H.reply_faults host.old) (H.reply_faults host.new) }
    ensures took { (input : List ℕ) → S.left source.old ≡ Some input → (taken : List ℕ) × Took result input (S.left source.new) taken }
    ensures files { IsTrue H.is_honest → FilesTold result (source.new ≡ source.old) (seen H.Host host.old) (seen H.Host host.new) }
    ensures told { IsTrue H.is_honest → (input : List ℕ) → S.left source.old ≡ Some input → RunTold result input (S.left source.new) (seen H.Host host.old) (seen H.Host host.new) }
{
    match Store::reopen(alloc, host) {
        Ok(store) => run_session(store, alloc, source, host),
        Err(fault) => {
            bad_stores();
            end_unopened(host, fault)
        }
    }
}

/// Runs the program: `init` makes a store of the workflow's text that the source has, and `run` reads a session from the source and takes it.
/// The words are those behind the program's name; the answer is the status that the process ends with.
pub fn nova<S: Source, H: Host>(alloc: Global, words: &[String], source: &mut S, host: &mut H) -> u8
    // Over every source and host: which statuses each form of the words may end with, and their causes.
    ensures other_words { AsksNothing (map string_bytes words.now) → (result ≡ 1) × (source.new ≡ source.old) × (host.new ≡ host.old) }
    ensures init_ends { AsksInit (map string_bytes words.now) → EndsBy result IsInitEnd }
    ensures run_ends { AsksRun (map string_bytes words.now) → EndsBy result IsRunEnd }
    ensures read { result ≡ 2 → Rose (S.faults source.old) (S.faults source.new) }
    ensures disk { result ≡ 3 → Rose (H.disk_faults host.old) (H.disk_faults host.new) }
    ensures reply { result ≡ 4 → Rose (H.reply_faults host.old) (H.reply_faults host.new) }
    // A text isn't read where a store is there.
    ensures unread { AsksInit (map string_bytes words.now) → result ≡ 7 → source.new ≡ source.old }
    ensures left { AsksInit (map string_bytes words.now) → IsTrue H.is_honest → HasMark (current (H.history host.old)) → source.new ≡ source.old }
    // the part of the input that a session took, where the source tells its bytes
    ensures took { AsksRun (map string_bytes words.now) → (input : List ℕ) → S.left source.old ≡ Some input →
        Tells result (λ status. (taken : List ℕ) × Took status input (S.left source.new) taken) }
    // Over an honest host: `init`, and `run` over files that are no store's and those that are.
    ensures made { AsksInit (map string_bytes words.now) → IsTrue H.is_honest → Tells result (λ status. InitRead status (S.left source.old) (S.left source.new) (seen H.Host host.old) (seen H.Host host.new)) }
    ensures files { AsksRun (map string_bytes words.now) → IsTrue H.is_honest → Tells result (λ status. FilesTold status (source.new ≡ source.old) (seen H.Host host.old) (seen H.Host host.new)) }
    ensures told { AsksRun (map string_bytes words.now) → IsTrue H.is_honest → (input : List ℕ) → S.left source.old ≡ Some input →
        Tells result (λ status. RunTold status input (S.left source.new) (seen H.Host host.old) (seen H.Host host.new)) }
{
    match call_of(words) {
        Call::Init => init(alloc, source, host).code(),
        Call::Run => run(alloc, source, host).code(),
        Call::Other => Status::Usage.code(),
    }
}
