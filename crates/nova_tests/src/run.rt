//! The program over bytes in memory.
use nova_engine::nova;
use nova_mem::{MemHost, MemSource, MemSteady};
use std::alloc::{AllocError, Global};

/// The workflow of the channel `raw`, of `tally`, which the task `all` computes of it, and of `sums`,
/// which the grouping task `count` changes by what is new of it.
pub const WORKFLOW: &str =
    "[[channel]]\nname = \"raw\"\ncolumns = [\"id long\", \"url chararray\", \"ms long\"]\nkey = [\"id\"]\n[[channel]]\nname = \"tally\"\ncolumns = [\"url chararray\", \"n long\"]\nkey = [\"url\"]\n[[channel]]\nname = \"sums\"\ncolumns = [\"url chararray\", \"n long\", \"total long\", \"worst long\"]\nkey = [\"url\"]\n[[task]]\nname = \"all\"\nscript = \"r = LOAD 'raw'; g = GROUP r BY url; c = FOREACH g GENERATE group, COUNT(r); STORE c INTO 'tally';\"\ninputs = [\"raw ALL\"]\noutput = \"tally BASE\"\n[[task]]\nname = \"count\"\nscript = \"r = LOAD 'raw'; g = GROUP r BY url; c = FOREACH g GENERATE group, COUNT(r), SUM(r.ms), MAX(r.ms); STORE c INTO 'sums';\"\ninputs = [\"raw NEW\"]\noutput = \"sums DELTA\"\n";

/// The reply to `init`, which the host of a test holds before others.
pub const READY: &str = "ready 3 2\n";

// The words of a command line.
fn words_of(alloc: Global, words: &[&str]) -> Result<Vec<String>, AllocError> {
    let mut all = Vec::new(alloc);
    for word in words {
        all.push(String::from_str(alloc, word)?)?;
    }
    Ok(all)
}

/// A source of these bytes, in pieces of this length.
pub fn source_of(alloc: Global, bytes: &[u8], piece: usize) -> Result<MemSource, AllocError> {
    let pieces = vec![in alloc; piece; bytes.len()]?;
    Ok(MemSource::new(alloc, bytes.to_vec(alloc)?, pieces))
}

/// A call of the program with one word, and its status.
pub fn call(
    alloc: Global,
    word: &str,
    host: &mut MemHost,
    source: &mut MemSource,
) -> Result<u8, AllocError> {
    let words = words_of(alloc, &[word])?;
    Ok(nova(alloc, &words, source, host))
}

/// `run` on a session, over a source that never fails, and its status.
pub fn run(alloc: Global, host: &mut MemHost, session: &str) -> Result<u8, AllocError> {
    let words = words_of(alloc, &["run"])?;
    let mut source = MemSteady::new(session.as_bytes().to_vec(alloc)?);
    Ok(nova(alloc, &words, &mut source, host))
}

/// `init` on the workflow, over a source that never fails, and its status.
pub fn init(alloc: Global, host: &mut MemHost) -> Result<u8, AllocError> {
    let words = words_of(alloc, &["init"])?;
    let mut source = MemSteady::new(WORKFLOW.as_bytes().to_vec(alloc)?);
    Ok(nova(alloc, &words, &mut source, host))
}

/// A host with a store without versions. Its replies are those to `init`.
pub fn with_store(alloc: Global) -> Result<MemHost, AllocError> {
    let mut host = MemHost::new(alloc);
    init(alloc, &mut host)?;
    Ok(host)
}

/// Whether a host's replies are those to `init` and then these.
pub fn replied(host: &MemHost, lines: &str) -> bool {
    match host.replies().strip_prefix(READY.as_bytes()) {
        Some(rest) => rest == lines.as_bytes(),
        None => false,
    }
}

/// The replies behind so many bytes of them.
pub fn replies_behind(host: &MemHost, length: usize) -> &[u8] {
    match host.replies().get(length..) {
        Some(rest) => rest,
        None => &[],
    }
}
