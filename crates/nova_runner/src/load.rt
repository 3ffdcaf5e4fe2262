//! A load.
ghost use Rattle.std.specs.Prelude.{◌≡◌, ◌+◌, ◌<◌, ◌≤◌, true, false, length, IfOk, IfErr, IsTrue, MatchResult};
ghost use Rattle.nova_row_codec.specs.Spelling.{spelling_of, told_length};
ghost use Rattle.nova_machine.specs.Workflow.{is_input, schema_in};
ghost use Rattle.nova_meta.specs.Catalog.{shelf_at};
ghost use Rattle.nova_runner.specs.Acts.{IsFull, load_block, load_commit};
ghost use Rattle.nova_runner.specs.Committing.{IsLoadReady, ReadsOn, Touched};
ghost use Rattle.nova_runner.specs.Steps.{AsksLoad, Does, InHost, IsStopDamage, IsStopEarly, IsStopFull, StopCause, Stops, silent, why_of};

use crate::ready::{Fresh, Ready};
use crate::stop::Stopped;
use crate::store::Store;
use nova_block::{encode, encode_puts, encoded_length, puts_length};
use nova_delta::Delta;
use nova_meta::Commit;
use nova_outside::Host;
use std::alloc::{AllocError, Global};

/// No journal passes this length.
const LIMIT: u64 = 1 << 62;

/// How many bytes the frame of a load's commit has.
const LOAD_FRAME: u64 = 30;

impl Store {
    /// How many bytes the block has that a load brings.
    fn load_length(&self, channel: u32, delta: &Delta) -> u64
        requires channel { channel < length self.now.flow.channels }
        ensures { result ≡ told_length (spelling_of (load_block self.now.catalog channel delta.now)) }
    {
        if self.catalog.version(channel) != 0 {
            return encoded_length(delta);
        }
        puts_length(delta)
    }

    /// Whether a load has room, in the journal and in each counter. It takes no memory.
    fn has_room(&self, channel: u32, delta: &Delta) -> bool
        requires channel { channel < length self.now.flow.channels }
        requires input { is_input self.now.flow channel ≡ true }
        ensures full { result ≡ false → IsFull self.now.journal.length self.now.catalog (load_commit self.now.catalog channel delta.now) }
        ensures room { result ≡ true → IsFull self.now.journal.length self.now.catalog (load_commit self.now.catalog channel delta.now) → ⊥ }
    {
        let size = self.load_length(channel, delta);
        let next = self.catalog.next_block();
        self.journal.length() <= LIMIT - LOAD_FRAME && self.catalog.may_load(channel, next, size)
    }

    /// The bytes of the block that a load brings.
    fn load_bytes(&self, alloc: Global, channel: u32, delta: &Delta) -> Result<Vec<u8>, AllocError>
        requires channel { channel < length self.now.flow.channels }
        ensures { IfOk result (λ bytes. bytes.items ≡ spelling_of (load_block self.now.catalog channel delta.now)) }
    {
        if self.catalog.version(channel) != 0 {
            return encode(alloc, delta);
        }
        encode_puts(alloc, delta)
    }

    /// Takes all the memory of a load that has room: for its block, and for its commit.
    fn load_ready(
        &self,
        alloc: Global,
        channel: u32,
        delta: &Delta,
    ) -> Result<(Fresh, Ready), AllocError>
        requires channel { channel < length self.now.flow.channels }
        requires input { is_input self.now.flow channel ≡ true }
        requires room { IsFull self.now.journal.length self.now.catalog (load_commit self.now.catalog channel delta.now) → ⊥ }
        ensures { IfOk result (λ made. IsLoadReady self.now channel delta.now made.0 made.1) }
    {
        let bytes = self.load_bytes(alloc, channel, delta)?;
        let block = self.catalog.next_block();
        let commit = Commit::Load {
            channel,
            block,
            size: bytes.len() as u64,
        };
        let ready = self.ready(alloc, &commit)?;
        Ok((Fresh { block, bytes }, ready))
    }

    /// Adds a version to an input channel, and answers its number.
    pub fn load<H: Host>(
        self,
        alloc: Global,
        host: &mut H,
        channel: u32,
        delta: &Delta,
    ) -> Result<(Store, u64), Stopped>
        requires channel { channel < length self.flow.channels }
        requires input { is_input self.flow channel ≡ true }
        requires schema { delta.now.schema ≡ schema_in self.flow channel }
        requires in_host { InHost H.is_honest self (H.history host.old) }
        // From each state that the store stood for it is the machine's step, or stopped.
        ensures step { MatchResult result
            (λ made. Does H.is_honest (AsksLoad channel delta.now) silent self made.0 (H.history host.old) (H.history host.new))
            (λ stop. Stops (why_of stop) H.is_honest (AsksLoad channel delta.now) self (H.history host.old) (H.history host.new)) }
        // Whatever the files stand for: it changes only what its commit names, and the journal has the commit.
        ensures read { IfOk result (λ made. ReadsOn H.is_honest self made.0 (load_commit self.catalog channel delta.now) (H.history host.old) (H.history host.new)) }
        ensures touched { IsTrue H.is_honest → Touched self (load_commit self.catalog channel delta.now) (H.history host.old) (H.history host.new) }
        ensures in_host { IfOk result (λ made. InHost H.is_honest made.0 (H.history host.new)) }
        ensures flow { IfOk result (λ made. made.0.flow ≡ self.flow) }
        ensures flight { IfOk result (λ made. made.0.flight ≡ self.flight) }
        ensures version { IfOk result (λ made. made.1 ≡ (shelf_at self.catalog channel).version + 1) }
        // Full exactly where its commit has no room, before any memory is taken and any file is called.
        ensures full { IfErr result (λ stop. IsStopFull stop → IsFull self.journal.length self.catalog (load_commit self.catalog channel delta.now)) }
        ensures room { IsFull self.journal.length self.catalog (load_commit self.catalog channel delta.now) → MatchResult result (λ made. ⊥) IsStopFull × (host.new ≡ host.old) }
        // And without room or memory the host is as it was, so the store that is handed back is in it still.
        ensures early { IfErr result (λ stop. IsStopEarly stop → host.new ≡ host.old) }
        ensures cause { IfErr result (StopCause self (H.disk_faults host.old) (H.disk_faults host.new)) }
        // A load reads nothing, so it tells no damage.
        ensures no_damage { IfErr result (λ stop. IsStopDamage stop → ⊥) }
        ensures later { H.disk_faults host.old ≤ H.disk_faults host.new }
        ensures reply_faults { H.reply_faults host.new ≡ H.reply_faults host.old }
        ensures bytes_read { H.bytes_read host.new ≡ H.bytes_read host.old }
    {
        if !self.has_room(channel, delta) {
            return Err(Stopped::Full {
                length: self.journal.length(),
            });
        }
        let (fresh, ready) = match self.load_ready(alloc, channel, delta) {
            Ok(made) => made,
            Err(_) => return Err(Stopped::NoMemory(self)),
        };
        let version = self.catalog.version(channel) + 1;
        match self.commit(host, &[fresh], ready) {
            Ok(store) => Ok((store, version)),
            Err(_) => Err(Stopped::Disk),
        }
    }
}
