//! A device in memory with an open session. Its calls say nothing, so that the proofs of tests don't carry what a session's say.
use crate::maker::Maker;
use device_session::{CommitReply, ReadRefusal, Session, TrimRefusal, WriteRefusal};
use platform::{MemPlatform, Platform};
use sdbt_base::{BLOCK, ListTape, MemSink};
use std::alloc::Global;
use std::marker::Model;

/// A medium in memory, keys for its pages, its ledger, and a session.
#[derive(Drop)]
pub(crate) struct Fixture {
    platform: MemPlatform,
    tape: ListTape,
    ledger: MemSink,
    session: Session,
}

impl Model for Fixture {
    ghost use Rattle.std.specs.Prelude.{length};
    ghost use Rattle.platform.specs.Mem.{image_of_now};
    ghost use Rattle.device_session.specs.Open.{IsOpen};

    ghost Value = { Unit {0} };

    ghost view = { λ f. tt };

    ghost invariant = { λ f. IsOpen f.session (length (image_of_now f.platform).recorded) };
}

impl Fixture {
    /// A device of 64 blocks of order 4 on a medium of so many pages, of which the empty leaf has the first. The ledger
    /// begins behind the entry of the format.
    pub(crate) fn new(alloc: Global, pages: u32) -> Option<Fixture> {
        let mut maker = Maker::new(alloc, pages)?;
        maker.format(alloc, 64, 4)?.ok()?;
        let ledger = MemSink::new(alloc, &[]).ok()?;
        let Maker { platform, tape, .. } = maker;
        Fixture::over(alloc, platform, tape, ledger, 4)
    }

    /// The device that is there, with a session that keeps so many nodes.
    fn over(
        alloc: Global,
        platform: MemPlatform,
        tape: ListTape,
        ledger: MemSink,
        nodes: usize,
    ) -> Option<Fixture> {
        let mut platform = platform;
        let session = Session::mount(alloc, &mut platform, nodes.min(4_096)).ok()?;
        Some(Fixture {
            platform,
            tape,
            ledger,
            session,
        })
    }

    /// Goes on with a session that is opened anew.
    pub(crate) fn mounted(self, alloc: Global) -> Option<Fixture> {
        self.keeping(alloc, 4)
    }

    /// Goes on with a session that is opened anew and keeps so many nodes.
    pub(crate) fn keeping(self, alloc: Global, nodes: usize) -> Option<Fixture> {
        let Fixture {
            platform,
            tape,
            ledger,
            ..
        } = self;
        Fixture::over(alloc, platform, tape, ledger, nodes)
    }

    /// Writes one byte to a block.
    pub(crate) fn write(&mut self, block: u64, byte: u8) -> Result<(), WriteRefusal> {
        self.session
            .write(&mut self.platform, &mut self.tape, block, &[byte])
    }

    /// Unmaps a block.
    pub(crate) fn trim(&mut self, block: u64) -> Result<(), TrimRefusal> {
        self.session.trim(&mut self.platform, block)
    }

    /// The first byte of a block.
    pub(crate) fn read(&mut self, block: u64) -> Result<u8, ReadRefusal> {
        let mut content = [7; BLOCK];
        self.session.read(&mut self.platform, block, &mut content)?;
        Ok(content[0])
    }

    /// Commits, and goes on where no call failed.
    pub(crate) fn commit(self) -> Option<(Fixture, CommitReply)> {
        let Fixture {
            mut platform,
            mut tape,
            mut ledger,
            mut session,
        } = self;
        let reply = session.commit(&mut platform, &mut tape, &mut ledger).ok()?;
        let fixture = Fixture {
            platform,
            tape,
            ledger,
            session,
        };
        Some((fixture, reply))
    }

    /// How many pages a read of a block reads.
    pub(crate) fn reads_of(&mut self, block: u64) -> Option<u64> {
        let before = self.platform.reads();
        self.read(block).ok()?;
        Some(self.platform.reads().saturating_sub(before))
    }

    /// How often the pages were synced, or the root record was replaced.
    pub(crate) fn changes(&self) -> u64 {
        self.platform.changes()
    }

    /// The number of pages on the medium.
    pub(crate) fn head(&self) -> u64 {
        self.platform.head()
    }

    /// The session's commit number, how many blocks are mapped, and how many there are.
    pub(crate) fn counts(&self) -> (u64, u64, u64) {
        let session = &self.session;
        (session.number(), session.mapped(), session.blocks())
    }

    /// What was put to the ledger.
    pub(crate) fn entries(&self) -> &[u8] {
        self.ledger.bytes()
    }
}
