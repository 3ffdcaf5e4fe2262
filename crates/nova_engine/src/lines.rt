//! A session's bytes, cut into lines as they come.
ghost use Rattle.std.specs.Prelude.{◌≡◌, ◌≢◌, ◌+◌, ◌<◌, ◌≤◌, ◌^◌, ◌++◌, ◌∷◌, [], length, IfOk, IfErr, true, false};
ghost use Rattle.nova_value.specs.Text.{has_newline};
ghost use Rattle.nova_script.specs.Forms.{kept};
ghost use Rattle.nova_engine.specs.Damage.{IsReadIn};
ghost use Rattle.nova_engine.specs.Loading.{line_count};
ghost use Rattle.nova_engine.specs.Moves.{BytesTold, EndTold, FinishTold, LastTold};
ghost use Rattle.nova_engine.specs.Seen.{seen};
ghost use Rattle.nova_engine.specs.Stopping.{HasStopCause, RepliesGrow};

use crate::cut::next_line;
use crate::reader::{LineReader, Session};
use crate::session::{close, take_line};
use crate::stop::Stop;
use nova_outside::Host;
use nova_script::HeldLine;
use std::alloc::Global;

/// Whether no bytes of a line are held.
fn holds_nothing(held: &HeldLine) -> bool
    ensures none { result ≡ true → held.now ≡ [] }
    ensures some { result ≡ false → held.now ≢ [] }
{
    held.bytes().is_empty()
}

/// Takes the line that these bytes and a newline end.
fn end_line<H: Host>(
    reader: LineReader,
    alloc: Global,
    host: &mut H,
    bytes: &[u8],
) -> Result<LineReader, Stop>
    requires room { line_count reader.session.load < 2 ^ 63 }
    requires line { has_newline bytes.now ≡ false }
    requires in_host { IsReadIn H.is_honest reader.session.store (H.history host.old) }
    ensures told { BytesTold H.is_honest reader (bytes.now ++ 10 ∷ []) (seen H.Host host.old) (seen H.Host host.new) result }
    ensures in_host { IfOk result (λ new. IsReadIn H.is_honest new.session.store (H.history host.new)) }
    ensures lines { IfOk result (λ new. line_count new.session.load ≤ line_count reader.session.load + 1) }
    ensures cause { HasStopCause H.Host host.old host.new result }
    ensures grows { RepliesGrow H.is_honest (H.history host.old) (H.history host.new) }
{
    let LineReader { session, mut held } = reader;
    if holds_nothing(&held) {
        let session = take_line(session, alloc, host, bytes)?;
        return Ok(LineReader { session, held });
    }
    held.push(bytes)?;
    let session = take_line(session, alloc, host, held.bytes())?;
    held.clear();
    Ok(LineReader { session, held })
}

/// Takes the next piece of the input.
pub fn take_piece<H: Host>(
    reader: LineReader,
    alloc: Global,
    host: &mut H,
    bytes: &[u8],
) -> Result<LineReader, Stop>
    requires room { line_count reader.session.load + length bytes.now < 2 ^ 63 }
    requires in_host { IsReadIn H.is_honest reader.session.store (H.history host.old) }
    ensures told { BytesTold H.is_honest reader bytes.now (seen H.Host host.old) (seen H.Host host.new) result }
    ensures in_host { IfOk result (λ new. IsReadIn H.is_honest new.session.store (H.history host.new)) }
    ensures lines { IfOk result (λ new. line_count new.session.load ≤ line_count reader.session.load + length bytes.now) }
    ensures cause { HasStopCause H.Host host.old host.new result }
    ensures grows { RepliesGrow H.is_honest (H.history host.old) (H.history host.new) }
{
    let mut reader = reader;
    let mut rest = bytes;
    while let Some((line, more)) = next_line(rest) {
        reader = end_line(reader, alloc, host, line)?;
        rest = more;
    }
    carry_on(reader, rest)
}

/// Keeps the first bytes of a line.
fn carry_on(reader: LineReader, bytes: &[u8]) -> Result<LineReader, Stop>
    requires { has_newline bytes.now ≡ false }
    ensures session { IfOk result (λ new. new.session ≡ reader.session) }
    ensures held { IfOk result (λ new. new.held ≡ kept (reader.held ++ bytes.now)) }
    ensures memory { IfErr result (λ stop. stop ≡ Stop.NoMemory) }
{
    let LineReader { session, mut held } = reader;
    held.push(bytes)?;
    Ok(LineReader { session, held })
}

/// Takes a last line that no newline ends.
fn take_last_line<H: Host>(reader: LineReader, alloc: Global, host: &mut H) -> Result<Session, Stop>
    requires room { line_count reader.session.load < 2 ^ 63 }
    requires in_host { IsReadIn H.is_honest reader.session.store (H.history host.old) }
    ensures told { LastTold H.is_honest reader (seen H.Host host.old) (seen H.Host host.new) result }
    ensures in_host { IfOk result (λ new. IsReadIn H.is_honest new.store (H.history host.new)) }
    ensures cause { HasStopCause H.Host host.old host.new result }
    ensures grows { RepliesGrow H.is_honest (H.history host.old) (H.history host.new) }
{
    let LineReader { session, held } = reader;
    if holds_nothing(&held) {
        return Ok(session);
    }
    take_line(session, alloc, host, held.bytes())
}

/// Takes a load that the input cut off.
fn end_session<H: Host>(session: Session, alloc: Global, host: &mut H) -> Result<(), Stop>
    requires in_host { IsReadIn H.is_honest session.store (H.history host.old) }
    ensures told { EndTold H.is_honest session (seen H.Host host.old) (seen H.Host host.new) result }
    ensures cause { HasStopCause H.Host host.old host.new result }
    ensures grows { RepliesGrow H.is_honest (H.history host.old) (H.history host.new) }
{
    let Session { store, load } = session;
    if let Some(pending) = load {
        close(store, alloc, host, pending, false)?;
    }
    Ok(())
}

/// Takes what is left where the input ends.
pub fn finish<H: Host>(reader: LineReader, alloc: Global, host: &mut H) -> Result<(), Stop>
    requires room { line_count reader.session.load < 2 ^ 63 }
    requires in_host { IsReadIn H.is_honest reader.session.store (H.history host.old) }
    ensures told { FinishTold H.is_honest reader (seen H.Host host.old) (seen H.Host host.new) result }
    ensures cause { HasStopCause H.Host host.old host.new result }
    ensures grows { RepliesGrow H.is_honest (H.history host.old) (H.history host.new) }
{
    let session = take_last_line(reader, alloc, host)?;
    end_session(session, alloc, host)
}
