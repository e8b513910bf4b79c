//! What a run keeps between lines, and the answer to each command.
ghost use Rattle.std.specs.Prelude.{◌≡◌, ◌≢◌, ◌<◌, ◌≤◌, ◌⊎◌, ℕ, List, Option, true, false, IfOk, IfErr, None, Some, Ok, take};
ghost use Rattle.sdbt_base.specs.Faults.{Tells};
ghost use Rattle.script_lang.specs.Commands as commands;
ghost use Rattle.script_lang.specs.Commands.{FitsBlock as FitsCommand, asked};
ghost use Rattle.script_lang.specs.Replies.{CanWrite, FitsBlock, said};
ghost use Rattle.sdbt_base.specs.Counts.{counts};
ghost use Rattle.session_calls.specs.Blame.{IsBlamed};
ghost use Rattle.platform.specs.History.{During};
ghost use Rattle.page_store.specs.Reading.{MayLookAndChange};
ghost use Rattle.seizure.specs.Opened.{count_of_kind, count_of_nodes};
ghost use Rattle.device_cli.specs.Causes.{AnswersAny};
ghost use Rattle.device_cli.specs.Drawing.{DrewFor, Spends};
ghost use Rattle.device_cli.specs.Replied.{outcome};
ghost use Rattle.device_cli.specs.World.{world_of};

use device_core::{EraseRefusal, FormatRefusal};
use device_session::{CommitReply, Session};
use platform::Platform;
use script_lang::{Command, Reply, ReplyWriter, is_in_limits, reply_with_content};
use sdbt_base::{BLOCK, ROOT, Sink, Tape};
use seizure::{Report, SeizeRefusal};
use session_calls::{
    DeviceStop, UpgradeReply, commit_session, mount_session, read_block, trim_block,
    upgrade_device, write_block,
};
use std::alloc::Global;

/// How many nodes the cache of a session has room for.
const CACHED_NODES: usize = 256;

/// What a run keeps between lines: the session, if there is one, and the buffers that each line uses again.
#[derive(Drop)]
pub(crate) struct Desk {
    alloc: Global,
    pub(crate) session: Option<Session>,
    // what a write writes, and what a read reads
    pub(crate) buffer: [u8; BLOCK],
    pub(crate) writer: ReplyWriter,
}

impl Desk {
    ghost use Rattle.device_cli.specs.Desk.{IsReady, IsWiped, IsWipedAt, Before, After};
    ghost use Rattle.device_cli.specs.Parts.{AddsPages, Keeps, KeepsFrom, KeepsStill, LooksFew, SeesAny, ServesAny, StaysEnough};

    /// No session.
    pub(crate) fn new(alloc: Global) -> Desk
        ensures ready { (head : ℕ) → IsReady result head }
        ensures session { result.session ≡ None }
    {
        Desk {
            alloc,
            session: None,
            buffer: [0; BLOCK],
            writer: ReplyWriter::new(),
        }
    }

    /// The reply to a command, once it is done.
    pub(crate) fn serve<P: Platform, T: Tape, L: Sink>(
        &mut self,
        platform: &mut P,
        tape: &mut T,
        ledger: &mut L,
        command: &Command,
    ) -> Result<Reply, DeviceStop>
        requires before { Before P.Platform self.old platform.old }
        requires fits { FitsCommand command.now }
        ensures after { After P.Platform self.old self.new platform.old platform.new (asked command.now self.old.buffer) result }
        ensures blame { IsBlamed (counts (P.faults platform.old) (T.faults tape.old) 0 0 (L.faults ledger.old))
            (counts (P.faults platform.new) (T.faults tape.new) 0 0 (L.faults ledger.new)) result }
        // On any image: why it is answered so.
        ensures any { AnswersAny P.tells (world_of P.Platform self.old.session platform.old) (world_of P.Platform self.new.session platform.new) (asked command.now self.old.buffer) (outcome result self.new.buffer) }
        // What it draws and puts, by its reply.
        ensures still { Spends tape.old tape.new ledger.old ledger.new (T.drawn tape.old) (T.drawn tape.new) (asked command.now self.old.buffer) (outcome result self.new.buffer) }
        ensures pages { AddsPages P.Platform self.old self.new platform.old platform.new (asked command.now self.old.buffer) result }
        ensures enough { StaysEnough self.old self.new result }
        ensures keeps { Keeps P.Platform T.Tape L.Sink self.old self.new platform.old platform.new tape.old tape.new ledger.old ledger.new result }
        ensures answered { P.tells → ServesAny P.Platform self.old self.new platform.old platform.new (asked command.now self.old.buffer) result }
        ensures seen { P.tells → SeesAny P.Platform self.old self.new platform.old platform.new result }
        ensures looks { P.tells → LooksFew P.Platform self.old self.new platform.old platform.new (asked command.now self.old.buffer) result }
    {
        match command {
            Command::Format { blocks, order } => {
                self.format(platform, tape, ledger, *blocks, *order)
            }
            Command::Mount => self.mount(platform),
            Command::Read { block } => self.read(platform, *block),
            Command::Write { block, count } => self.write(platform, tape, *block, *count),
            Command::Trim { block } => self.trim(platform, *block),
            Command::Commit => self.commit(platform, tape, ledger),
            Command::Drop => self.give_up(platform),
            Command::Erase => self.erase(platform),
            Command::Upgrade => self.upgrade(platform, tape, ledger),
            Command::Stat => self.stat(platform),
            Command::Seize => self.seize(platform),
        }
    }

    /// Makes a device, where the numbers are within the limits of one.
    fn format<P: Platform, T: Tape, L: Sink>(
        &mut self,
        platform: &mut P,
        tape: &mut T,
        ledger: &mut L,
        blocks: u64,
        order: u64,
    ) -> Result<Reply, DeviceStop>
        requires { Before P.Platform self.old platform.old }
        ensures after { After P.Platform self.old self.new platform.old platform.new (commands.Format blocks order) result }
        ensures blame { IsBlamed (counts (P.faults platform.old) (T.faults tape.old) 0 0 (L.faults ledger.old))
            (counts (P.faults platform.new) (T.faults tape.new) 0 0 (L.faults ledger.new)) result }
        ensures any { AnswersAny P.tells (world_of P.Platform self.old.session platform.old) (world_of P.Platform self.new.session platform.new) (commands.Format blocks order) (outcome result self.new.buffer) }
        ensures pages { AddsPages P.Platform self.old self.new platform.old platform.new (commands.Format blocks order) result }
        ensures drew { IfOk (outcome result self.new.buffer) (λ reply. DrewFor (T.drawn tape.old) (commands.Format blocks order) reply (T.drawn tape.new)) }
        ensures enough { StaysEnough self.old self.new result }
        ensures keeps { Keeps P.Platform T.Tape L.Sink self.old self.new platform.old platform.new tape.old tape.new ledger.old ledger.new result }
        ensures answered { P.tells → ServesAny P.Platform self.old self.new platform.old platform.new (commands.Format blocks order) result }
        ensures looks { P.tells → LooksFew P.Platform self.old self.new platform.old platform.new (commands.Format blocks order) result }
    {
        if !is_in_limits(blocks, order) {
            return refuse_format(platform);
        }
        match device_core::format(self.alloc, platform, tape, ledger, blocks, order as u16) {
            Ok(()) => Ok(Reply::Formatted),
            Err(FormatRefusal::NotEmpty) => Ok(Reply::NotEmpty),
            Err(FormatRefusal::Full) => Ok(Reply::Full),
            Err(FormatRefusal::Memory) => Err(DeviceStop::Memory),
            Err(FormatRefusal::TapeFault) => Err(DeviceStop::Tape),
            Err(FormatRefusal::LedgerFault) => Err(DeviceStop::Ledger),
            Err(FormatRefusal::PlatformFault) => Err(DeviceStop::Platform),
        }
    }

    fn mount<P: Platform>(&mut self, platform: &mut P) -> Result<Reply, DeviceStop>
        requires { Before P.Platform self.old platform.old }
        ensures after { After P.Platform self.old self.new platform.old platform.new commands.Mount result }
        ensures blame { IsBlamed (counts (P.faults platform.old) 0 0 0 0) (counts (P.faults platform.new) 0 0 0 0) result }
        ensures any { AnswersAny P.tells (world_of P.Platform self.old.session platform.old) (world_of P.Platform self.new.session platform.new) commands.Mount (outcome result self.new.buffer) }
        ensures pages { AddsPages P.Platform self.old self.new platform.old platform.new commands.Mount result }
        ensures enough { StaysEnough self.old self.new result }
        ensures keeps { KeepsStill P.Platform self.old self.new platform.old platform.new result }
        ensures answered { P.tells → ServesAny P.Platform self.old self.new platform.old platform.new commands.Mount result }
        ensures looks { P.tells → LooksFew P.Platform self.old self.new platform.old platform.new commands.Mount result }
    {
        if self.session.is_some() {
            return Ok(Reply::AlreadyMounted);
        }
        let Some(session) = mount_session(self.alloc, platform, CACHED_NODES)? else {
            return Ok(Reply::NoDevice);
        };
        let number = session.number();
        self.session = Some(session);
        Ok(Reply::Mounted { number })
    }

    fn read<P: Platform>(&mut self, platform: &mut P, block: u64) -> Result<Reply, DeviceStop>
        requires { Before P.Platform self.old platform.old }
        ensures after { After P.Platform self.old self.new platform.old platform.new (commands.Read block) result }
        ensures blame { IsBlamed (counts (P.faults platform.old) 0 0 0 0) (counts (P.faults platform.new) 0 0 0 0) result }
        ensures any { AnswersAny P.tells (world_of P.Platform self.old.session platform.old) (world_of P.Platform self.new.session platform.new) (commands.Read block) (outcome result self.new.buffer) }
        ensures pages { AddsPages P.Platform self.old self.new platform.old platform.new (commands.Read block) result }
        ensures enough { StaysEnough self.old self.new result }
        ensures keeps { KeepsStill P.Platform self.old self.new platform.old platform.new result }
        ensures answered { P.tells → ServesAny P.Platform self.old self.new platform.old platform.new (commands.Read block) result }
        ensures looks { P.tells → LooksFew P.Platform self.old self.new platform.old platform.new (commands.Read block) result }
    {
        let Some(session) = &mut self.session else {
            return Ok(Reply::Unmounted);
        };
        if block >= session.blocks() {
            return Ok(Reply::Range);
        }
        read_block(session, platform, block, &mut self.buffer)?;
        Ok(reply_with_content(&self.buffer))
    }

    fn write<P: Platform, T: Tape>(
        &mut self,
        platform: &mut P,
        tape: &mut T,
        block: u64,
        count: usize,
    ) -> Result<Reply, DeviceStop>
        requires size { count ≤ 4096 }
        requires before { Before P.Platform self.old platform.old }
        ensures after { After P.Platform self.old self.new platform.old platform.new (commands.Write block (take count self.old.buffer)) result }
        ensures blame { IsBlamed (counts (P.faults platform.old) (T.faults tape.old) 0 0 0)
            (counts (P.faults platform.new) (T.faults tape.new) 0 0 0) result }
        ensures any { AnswersAny P.tells (world_of P.Platform self.old.session platform.old) (world_of P.Platform self.new.session platform.new) (commands.Write block (take count self.old.buffer)) (outcome result self.new.buffer) }
        ensures pages { AddsPages P.Platform self.old self.new platform.old platform.new (commands.Write block (take count self.old.buffer)) result }
        ensures drew { IfOk (outcome result self.new.buffer) (λ reply. DrewFor (T.drawn tape.old) (commands.Write block (take count self.old.buffer)) reply (T.drawn tape.new)) }
        ensures enough { StaysEnough self.old self.new result }
        ensures keeps { (written : Option (List ℕ))
            → KeepsFrom P.Platform (T.drawn tape.old) (T.drawn tape.new) written written self.old self.new platform.old platform.new result }
        ensures answered { P.tells → ServesAny P.Platform self.old self.new platform.old platform.new (commands.Write block (take count self.old.buffer)) result }
        ensures looks { P.tells → LooksFew P.Platform self.old self.new platform.old platform.new (commands.Write block (take count self.old.buffer)) result }
    {
        let Some(session) = &mut self.session else {
            return Ok(Reply::Unmounted);
        };
        if block >= session.blocks() {
            return Ok(Reply::Range);
        }
        if platform.head() == platform.capacity() {
            return Ok(Reply::Full);
        }
        write_block(session, platform, tape, block, &self.buffer[..count])?;
        Ok(Reply::Done)
    }

    fn trim<P: Platform>(&mut self, platform: &mut P, block: u64) -> Result<Reply, DeviceStop>
        requires { Before P.Platform self.old platform.old }
        ensures after { After P.Platform self.old self.new platform.old platform.new (commands.Trim block) result }
        ensures blame { IsBlamed (counts (P.faults platform.old) 0 0 0 0) (counts (P.faults platform.new) 0 0 0 0) result }
        ensures any { AnswersAny P.tells (world_of P.Platform self.old.session platform.old) (world_of P.Platform self.new.session platform.new) (commands.Trim block) (outcome result self.new.buffer) }
        ensures pages { AddsPages P.Platform self.old self.new platform.old platform.new (commands.Trim block) result }
        ensures enough { StaysEnough self.old self.new result }
        ensures keeps { KeepsStill P.Platform self.old self.new platform.old platform.new result }
        ensures answered { P.tells → ServesAny P.Platform self.old self.new platform.old platform.new (commands.Trim block) result }
        ensures looks { P.tells → LooksFew P.Platform self.old self.new platform.old platform.new (commands.Trim block) result }
    {
        let Some(session) = &mut self.session else {
            return Ok(Reply::Unmounted);
        };
        if block >= session.blocks() {
            return Ok(Reply::Range);
        }
        trim_block(session, platform, block)?;
        Ok(Reply::Done)
    }

    fn commit<P: Platform, T: Tape, L: Sink>(
        &mut self,
        platform: &mut P,
        tape: &mut T,
        ledger: &mut L,
    ) -> Result<Reply, DeviceStop>
        requires { Before P.Platform self.old platform.old }
        ensures after { After P.Platform self.old self.new platform.old platform.new commands.Commit result }
        ensures blame { IsBlamed (counts (P.faults platform.old) (T.faults tape.old) 0 0 (L.faults ledger.old))
            (counts (P.faults platform.new) (T.faults tape.new) 0 0 (L.faults ledger.new)) result }
        ensures any { AnswersAny P.tells (world_of P.Platform self.old.session platform.old) (world_of P.Platform self.new.session platform.new) commands.Commit (outcome result self.new.buffer) }
        ensures pages { AddsPages P.Platform self.old self.new platform.old platform.new commands.Commit result }
        ensures drew { IfOk (outcome result self.new.buffer) (λ reply. DrewFor (T.drawn tape.old) commands.Commit reply (T.drawn tape.new)) }
        ensures enough { StaysEnough self.old self.new result }
        ensures keeps { Keeps P.Platform T.Tape L.Sink self.old self.new platform.old platform.new tape.old tape.new ledger.old ledger.new result }
        ensures answered { P.tells → ServesAny P.Platform self.old self.new platform.old platform.new commands.Commit result }
        ensures looks { P.tells → LooksFew P.Platform self.old self.new platform.old platform.new commands.Commit result }
    {
        let Some(session) = self.session.take() else {
            return Ok(Reply::Unmounted);
        };
        let done = commit_session(session, platform, tape, ledger)?;
        self.session = Some(done.session);
        match done.reply {
            CommitReply::Committed { number } => Ok(Reply::Committed { number }),
            CommitReply::Full { .. } => Ok(Reply::Full),
        }
    }

    fn give_up<P: Platform>(&mut self, platform: &P) -> Result<Reply, DeviceStop>
        requires ready { IsReady self.old (P.head platform.now) }
        ensures session { self.new.session ≡ None }
        ensures reply { IfOk result (λ reply. CanWrite (said reply self.new.buffer)) }
        ensures short { IfOk result FitsBlock }
        ensures wiped { IfOk result (λ reply. IsWipedAt reply self.new) }
        ensures full { IfOk result (λ reply. reply ≡ Reply.Full → ⊥) }
        ensures any { AnswersAny P.tells (world_of P.Platform self.old.session platform.now) (world_of P.Platform self.new.session platform.now) commands.Drop (outcome result self.new.buffer) }
        ensures stop { IfErr result (λ stop. ⊥) }
        ensures enough { StaysEnough self.old self.new result }
        ensures answered { P.tells → ServesAny P.Platform self.old self.new platform.now platform.now commands.Drop result }
        ensures looks { P.tells → LooksFew P.Platform self.old self.new platform.now platform.now commands.Drop result }
    {
        let _ = platform;
        if self.session.is_none() {
            return Ok(Reply::Unmounted);
        }
        self.close();
        Ok(Reply::Dropped)
    }

    fn erase<P: Platform>(&mut self, platform: &mut P) -> Result<Reply, DeviceStop>
        requires { Before P.Platform self.old platform.old }
        ensures after { After P.Platform self.old self.new platform.old platform.new commands.Erase result }
        ensures blame { IsBlamed (counts (P.faults platform.old) 0 0 0 0) (counts (P.faults platform.new) 0 0 0 0) result }
        ensures any { AnswersAny P.tells (world_of P.Platform self.old.session platform.old) (world_of P.Platform self.new.session platform.new) commands.Erase (outcome result self.new.buffer) }
        ensures pages { AddsPages P.Platform self.old self.new platform.old platform.new commands.Erase result }
        ensures enough { StaysEnough self.old self.new result }
        ensures keeps { KeepsStill P.Platform self.old self.new platform.old platform.new result }
        ensures answered { P.tells → ServesAny P.Platform self.old self.new platform.old platform.new commands.Erase result }
        ensures looks { P.tells → LooksFew P.Platform self.old self.new platform.old platform.new commands.Erase result }
    {
        match device_core::erase(platform) {
            Ok(()) => {
                self.close();
                Ok(Reply::Erased)
            }
            Err(EraseRefusal::NoDevice) => Ok(Reply::NoDevice),
            Err(EraseRefusal::PlatformFault) => Err(DeviceStop::Platform),
        }
    }

    /// Makes a device of version 1 one of version 2, where no session is open on it.
    fn upgrade<P: Platform, T: Tape, L: Sink>(
        &self,
        platform: &mut P,
        tape: &mut T,
        ledger: &mut L,
    ) -> Result<Reply, DeviceStop>
        requires { Before P.Platform self.now platform.old }
        ensures after { After P.Platform self.now self.now platform.old platform.new commands.Upgrade result }
        ensures blame { IsBlamed (counts (P.faults platform.old) (T.faults tape.old) 0 0 (L.faults ledger.old))
            (counts (P.faults platform.new) (T.faults tape.new) 0 0 (L.faults ledger.new)) result }
        ensures any { AnswersAny P.tells (world_of P.Platform self.now.session platform.old) (world_of P.Platform self.now.session platform.new) commands.Upgrade (outcome result self.now.buffer) }
        ensures pages { AddsPages P.Platform self.now self.now platform.old platform.new commands.Upgrade result }
        ensures drew { IfOk (outcome result self.now.buffer) (λ reply. DrewFor (T.drawn tape.old) commands.Upgrade reply (T.drawn tape.new)) }
        ensures enough { StaysEnough self.now self.now result }
        ensures keeps { Keeps P.Platform T.Tape L.Sink self.now self.now platform.old platform.new tape.old tape.new ledger.old ledger.new result }
        ensures answered { P.tells → ServesAny P.Platform self.now self.now platform.old platform.new commands.Upgrade result }
    {
        if self.session.is_some() {
            return Ok(Reply::AlreadyMounted);
        }
        let reply = upgrade_device(self.alloc, platform, tape, ledger)?;
        match reply {
            UpgradeReply::Upgraded { number } => Ok(Reply::Upgraded { number }),
            UpgradeReply::NoDevice => Ok(Reply::NoDevice),
            UpgradeReply::AlreadyUpgraded => Ok(Reply::AlreadyUpgraded),
            UpgradeReply::Full => Ok(Reply::Full),
        }
    }

    /// Counts what an adversary would open now, who has the root record and every page.
    fn seize<P: Platform>(&self, platform: &mut P) -> Result<Reply, DeviceStop>
        requires { Before P.Platform self.now platform.old }
        ensures after { After P.Platform self.now self.now platform.old platform.new commands.Seize result }
        ensures blame { IsBlamed (counts (P.faults platform.old) 0 0 0 0) (counts (P.faults platform.new) 0 0 0 0) result }
        ensures any { AnswersAny P.tells (world_of P.Platform self.now.session platform.old) (world_of P.Platform self.now.session platform.new) commands.Seize (outcome result self.now.buffer) }
        ensures head { P.head platform.new ≡ P.head platform.old }
        ensures enough { StaysEnough self.now self.now result }
        ensures keeps { KeepsStill P.Platform self.now self.now platform.old platform.new result }
        ensures answered { P.tells → ServesAny P.Platform self.now self.now platform.old platform.new commands.Seize result }
        ensures seen { P.tells → SeesAny P.Platform self.now self.now platform.old platform.new result }
    {
        match seizure::seize(self.alloc, platform) {
            Ok(report) => Ok(reply_with_counts(&report)),
            Err(SeizeRefusal::BadRoot) => Err(DeviceStop::BadRoot),
            Err(SeizeRefusal::PlatformFault) => Err(DeviceStop::Platform),
            Err(SeizeRefusal::Memory) => Err(DeviceStop::Memory),
        }
    }

    /// Ends the session, if there is one, and leaves nothing in its buffers, nor in those that each line uses.
    fn close(&mut self)
        ensures session { self.new.session ≡ None }
        ensures wiped { IsWiped self.new }
    {
        if let Some(mut session) = self.session.take() {
            session.wipe();
            session.let_go();
        }
        self.buffer = [0; BLOCK];
        self.writer.wipe();
    }

    fn stat<P: Platform>(&self, platform: &P) -> Result<Reply, DeviceStop>
        requires ready { IsReady self.now (P.head platform.now) }
        ensures reply { IfOk result (λ reply. CanWrite (said reply self.now.buffer)) }
        ensures short { IfOk result FitsBlock }
        ensures wiped { IfOk result (λ reply. IsWipedAt reply self.now) }
        ensures full { IfOk result (λ reply. reply ≡ Reply.Full → ⊥) }
        ensures any { AnswersAny P.tells (world_of P.Platform self.now.session platform.now) (world_of P.Platform self.now.session platform.now) commands.Stat (outcome result self.now.buffer) }
        ensures stop { IfErr result (λ stop. ⊥) }
        ensures enough { StaysEnough self.now self.now result }
        ensures answered { P.tells → ServesAny P.Platform self.now self.now platform.now platform.now commands.Stat result }
        ensures looks { P.tells → LooksFew P.Platform self.now self.now platform.now platform.now commands.Stat result }
    {
        let _ = platform;
        match &self.session {
            Some(session) => Ok(Reply::Stat {
                mapped: session.mapped(),
                number: session.number(),
            }),
            None => Ok(Reply::Unmounted),
        }
    }
}

/// The reply that gives what a seizure counted.
fn reply_with_counts(report: &Report) -> Reply
    ensures { result ≡ Reply.Seized report.now.pages (count_of_nodes report.now.opened) (count_of_kind 1 report.now.opened) }
{
    Reply::Seized {
        pages: report.pages(),
        nodes: report.nodes(),
        blocks: report.blocks(),
    }
}

/// The reply to a `format` of numbers that no device has: that there is a device already comes first.
fn refuse_format<P: Platform>(platform: &mut P) -> Result<Reply, DeviceStop>
    ensures replies { P.tells → IfOk result (λ reply. ((reply ≡ Reply.NotEmpty) × ((P.history platform.old).present.cell ≢ None))
        ⊎ ((reply ≡ Reply.Range) × ((P.history platform.old).present.cell ≡ None))) }
    ensures either { IfOk result (λ reply. (reply ≡ Reply.NotEmpty) ⊎ (reply ≡ Reply.Range)) }
    ensures image { P.tells → (P.history platform.new).present ≡ (P.history platform.old).present }
    ensures time { P.tells
        → During (P.history platform.old) (P.history platform.new) (λ image. image.cell ≡ (P.history platform.old).present.cell) }
    ensures pages { (P.head platform.new ≡ P.head platform.old) × (P.capacity platform.new ≡ P.capacity platform.old) }
    ensures reads { P.tells → MayLookAndChange P.Platform 0 platform.old platform.new }
    ensures reply { IfOk result (λ reply. (buffer : List ℕ) → CanWrite (said reply buffer)) }
    ensures short { IfOk result FitsBlock }
    ensures count { P.faults platform.old ≤ P.faults platform.new }
    ensures cause { IfErr result (λ stop. stop ≡ DeviceStop.Platform) × Tells result (P.faults platform.old) (P.faults platform.new) }
{
    let mut cell = [0; ROOT];
    match platform.load_root(&mut cell) {
        Ok(true) => Ok(Reply::NotEmpty),
        Ok(false) => Ok(Reply::Range),
        Err(_) => Err(DeviceStop::Platform),
    }
}
