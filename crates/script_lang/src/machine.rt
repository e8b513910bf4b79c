//! The array machine as plain code.

ghost use Rattle.std.specs.Prelude.{◌≡◌, ◌≢◌, ◌-◌, ◌^◌, ◌<◌, ◌≤◌, ℕ, List, length, true, false, None, IfOk, OnErr};
ghost use Rattle.script_lang.specs.Arrays.{Counted, in_limits, number_of, step, takes_memory, trimmed, content_reply};
ghost use Rattle.script_lang.specs.Answers.{answer, none_counted};
ghost use Rattle.sdbt_base.specs.Arrays.{State, written, unmapped, padded, content_of, committed, session_on};
ghost use Rattle.std.specs.Prelude.{take, ◌%◌};
ghost use Rattle.std.specs.Bool.{OnTrue};
ghost use Rattle.script_lang.specs.Commands as commands;
ghost use Rattle.script_lang.specs.Commands.{asked, FitsBlock};
ghost use Rattle.script_lang.specs.Replies.{CanWrite, said, FitsBlock as FitsReply};

use crate::commands::Command;
use crate::devices::{Contents, Device, Session};
use crate::replies::Reply;
use sdbt_base::{BLOCK, MAX_BLOCKS, MAX_ORDER, Memory};
use std::alloc::Global;
use std::marker::Model;

/// A device that is an array of blocks, and the session that is open on it.
#[derive(Drop)]
pub struct Machine {
    alloc: Global,
    device: Option<Device>,
    session: Option<Session>,
}

impl Model for Machine {
    ghost use Rattle.sdbt_base.specs.Arrays.{State};
    ghost use Rattle.script_lang.specs.Codes.{state_code};

    ghost Value = { State };

    ghost coded = { state_code };

    ghost view = { λ m. record { device = m.device; session = m.session } };
}

impl Machine {
    /// No device, and no session.
    pub fn new(alloc: Global) -> Machine
        ensures { result ≡ record { device = None; session = None } }
    {
        Machine {
            alloc,
            device: None,
            session: None,
        }
    }

    /// The commit number of the device, and 0 without one.
    pub fn number(&self) -> u64
        ensures { result ≡ number_of self.now }
    {
        match &self.device {
            None => 0,
            Some(device) => device.number,
        }
    }

    /// The reply to a command, on a medium that is full or is not: `full` answers `Full` where a format, a
    /// write, a commit of changes or an upgrade would be accepted. What a write writes stands in the buffer before, and what a block holds
    /// after. After `Memory` the machine is as before.
    pub fn step(
        &mut self,
        command: &Command,
        buffer: &mut [u8; BLOCK],
        full: bool,
    ) -> Result<Reply, Memory>
        requires served { command.now ≢ Command.Seize }
        requires fits { FitsBlock command.now }
        requires counted { number_of self.old < 2 ^ 64 - 1 }
        ensures step { IfOk result (λ reply. (counted : Counted) → (said reply buffer.new, self.new) ≡ answer full counted self.old (asked command.now buffer.old)) }
        ensures memory { OnErr result (self.new ≡ self.old) }
        // What refuses the command is looked for before.
        ensures lacked { OnErr result (takes_memory full self.old (asked command.now buffer.old) ≡ true) }
        // The reply can be written.
        ensures written { IfOk result (λ reply. CanWrite (said reply buffer.new)) }
        ensures short { IfOk result FitsReply }
    {
        match command {
            Command::Format { blocks, order } => Ok(self.format(*blocks, *order, full)),
            Command::Mount => self.mount(),
            Command::Read { block } => Ok(self.read(*block, buffer)),
            Command::Write { block, count } => self.write(*block, &buffer[..*count], full),
            Command::Trim { block } => Ok(self.trim(*block)),
            Command::Commit => self.commit(full),
            Command::Drop => Ok(self.give_up()),
            Command::Erase => Ok(self.erase()),
            Command::Upgrade => Ok(self.upgrade(full)),
            Command::Stat => Ok(self.stat()),
            Command::Seize => unreachable!(),
        }
    }

    fn format(&mut self, blocks: u64, order: u64, full: bool) -> Reply
        ensures step { (buffer : List ℕ) → (said result buffer, self.new) ≡ answer full none_counted self.old (commands.Format blocks order) }
        ensures short { FitsReply result }
    {
        if self.device.is_some() {
            return Reply::NotEmpty;
        }
        if !is_in_limits(blocks, order) {
            return Reply::Range;
        }
        if full {
            return Reply::Full;
        }
        self.device = Some(Device {
            version: 1,
            blocks,
            order,
            number: 0,
            contents: Contents::new(self.alloc),
        });
        Reply::Formatted
    }

    fn mount(&mut self) -> Result<Reply, Memory>
        ensures step { IfOk result (λ reply. (buffer : List ℕ) → (said reply buffer, self.new) ≡ step none_counted self.old commands.Mount) }
        ensures short { IfOk result FitsReply }
        ensures memory { OnErr result (self.new ≡ self.old) }
        ensures lacked { OnErr result (takes_memory false self.old commands.Mount ≡ true) }
    {
        if self.session.is_some() {
            return Ok(Reply::AlreadyMounted);
        }
        let Some(device) = &self.device else {
            return Ok(Reply::NoDevice);
        };
        let number = device.number;
        let contents = device.contents.duplicate()?;
        self.session = Some(Session {
            contents,
            touched: false,
        });
        Ok(Reply::Mounted { number })
    }

    fn read(&self, block: u64, buffer: &mut [u8; BLOCK]) -> Reply
        ensures step { (said result buffer.new, self.now) ≡ step none_counted self.now (commands.Read block) }
        ensures written { CanWrite (said result buffer.new) }
        ensures short { FitsReply result }
    {
        let Some(device) = &self.device else {
            return Reply::Unmounted;
        };
        let Some(session) = &self.session else {
            return Reply::Unmounted;
        };
        if block < device.blocks {
            content(&session.contents, block, buffer)
        } else {
            Reply::Range
        }
    }

    fn write(&mut self, block: u64, bytes: &[u8], full: bool) -> Result<Reply, Memory>
        requires { length bytes.now ≤ 4096 }
        ensures step { IfOk result (λ reply. (buffer : List ℕ) → (said reply buffer, self.new) ≡ answer full none_counted self.old (commands.Write block bytes.now)) }
        ensures short { IfOk result FitsReply }
        ensures memory { OnErr result (self.new ≡ self.old) }
        ensures lacked { OnErr result (takes_memory full self.old (commands.Write block bytes.now) ≡ true) }
    {
        let Some(device) = &self.device else {
            return Ok(Reply::Unmounted);
        };
        let blocks = device.blocks;
        let Some(mut session) = self.session.take() else {
            return Ok(Reply::Unmounted);
        };
        let reply = if block >= blocks {
            Ok(Reply::Range)
        } else if full {
            Ok(Reply::Full)
        } else {
            write_block(&mut session, block, bytes)
        };
        self.session = Some(session);
        reply
    }

    fn trim(&mut self, block: u64) -> Reply
        ensures step { (buffer : List ℕ) → (said result buffer, self.new) ≡ step none_counted self.old (commands.Trim block) }
        ensures short { FitsReply result }
    {
        let Some(device) = &self.device else {
            return Reply::Unmounted;
        };
        let blocks = device.blocks;
        let Some(mut session) = self.session.take() else {
            return Reply::Unmounted;
        };
        let reply = if block < blocks {
            trim_block(&mut session, block)
        } else {
            Reply::Range
        };
        self.session = Some(session);
        reply
    }

    fn commit(&mut self, full: bool) -> Result<Reply, Memory>
        requires { number_of self.old < 2 ^ 64 - 1 }
        ensures step { IfOk result (λ reply. (buffer : List ℕ) → (said reply buffer, self.new) ≡ answer full none_counted self.old commands.Commit) }
        ensures short { IfOk result FitsReply }
        ensures memory { OnErr result (self.new ≡ self.old) }
        ensures lacked { OnErr result (takes_memory full self.old commands.Commit ≡ true) }
    {
        let Some(device) = &self.device else {
            return Ok(Reply::Unmounted);
        };
        let Some(session) = &self.session else {
            return Ok(Reply::Unmounted);
        };
        if !session.touched {
            return Ok(Reply::Committed {
                number: device.number,
            });
        }
        if full {
            return Ok(Reply::Full);
        }
        let (committed, unchanged) = after_commit(device, session)?;
        let number = committed.number;
        self.device = Some(committed);
        self.session = Some(unchanged);
        Ok(Reply::Committed { number })
    }

    fn give_up(&mut self) -> Reply
        ensures step { (buffer : List ℕ) → (said result buffer, self.new) ≡ step none_counted self.old commands.Drop }
        ensures short { FitsReply result }
    {
        if self.device.is_none() {
            return Reply::Unmounted;
        }
        if self.session.is_none() {
            return Reply::Unmounted;
        }
        self.session = None;
        Reply::Dropped
    }

    fn erase(&mut self) -> Reply
        ensures step { (buffer : List ℕ) → (said result buffer, self.new) ≡ step none_counted self.old commands.Erase }
        ensures short { FitsReply result }
    {
        if self.device.is_none() {
            return Reply::NoDevice;
        }
        self.device = None;
        self.session = None;
        Reply::Erased
    }

    fn upgrade(&mut self, full: bool) -> Reply
        requires { number_of self.old < 2 ^ 64 - 1 }
        ensures step { (buffer : List ℕ) → (said result buffer, self.new) ≡ answer full none_counted self.old commands.Upgrade }
        ensures short { FitsReply result }
    {
        if self.session.is_some() {
            return Reply::AlreadyMounted;
        }
        let Some(device) = &mut self.device else {
            return Reply::NoDevice;
        };
        if device.version == 2 {
            return Reply::AlreadyUpgraded;
        }
        if full {
            return Reply::Full;
        }
        device.version = 2;
        device.order = device.order.min(48);
        device.number += 1;
        Reply::Upgraded {
            number: device.number,
        }
    }

    fn stat(&self) -> Reply
        ensures step { (buffer : List ℕ) → (said result buffer, self.now) ≡ step none_counted self.now commands.Stat }
        ensures short { FitsReply result }
    {
        let Some(device) = &self.device else {
            return Reply::Unmounted;
        };
        let Some(session) = &self.session else {
            return Reply::Unmounted;
        };
        Reply::Stat {
            mapped: session.contents.len(),
            number: device.number,
        }
    }
}

/// The device that a commit of a session's changes makes, and the session that goes on over it.
fn after_commit(device: &Device, session: &Session) -> Result<(Device, Session), Memory>
    requires { device.now.number < 2 ^ 64 - 1 }
    ensures { IfOk result (λ it. (it.0 ≡ committed device.now session.now) × (it.1 ≡ session_on it.0)) }
{
    let committed = Device {
        version: device.version,
        blocks: device.blocks,
        order: device.order,
        number: device.number + 1,
        contents: session.contents.duplicate()?,
    };
    let unchanged = Session {
        contents: session.contents.duplicate()?,
        touched: false,
    };
    Ok((committed, unchanged))
}

/// Whether a device may have so many blocks, and this order.
pub fn is_in_limits(blocks: u64, order: u64) -> bool
    ensures limits { result ≡ in_limits blocks order }
    ensures numbers { OnTrue result ((1 ≤ blocks) × (blocks ≤ 1048576) × (4 ≤ order) × (order ≤ 64) × (order % 2 ≡ 0)) }
{
    1 <= blocks
        && blocks <= MAX_BLOCKS
        && 4 <= order
        && order <= u64::from(MAX_ORDER)
        && order % 2 == 0
}

/// What a block holds, as a reply.
fn content(contents: &Contents, block: u64, buffer: &mut [u8; BLOCK]) -> Reply
    ensures value { said result buffer.new ≡ content_reply (content_of contents.now block) }
    ensures written { CanWrite (said result buffer.new) }
    ensures short { FitsReply result }
{
    match contents.get(block) {
        None => Reply::Content { count: 0 },
        Some(content) => {
            *buffer = *content;
            reply_with_content(buffer)
        }
    }
}

/// All bytes of a block.
fn whole(content: &[u8; BLOCK]) -> &[u8]
    ensures value { result.now ≡ content.now }
    ensures len { length result.now ≡ 4096 }
{
    content
}

/// The reply that gives the content of the block in the buffer: all of it but its trailing zeros.
pub fn reply_with_content(buffer: &[u8; BLOCK]) -> Reply
    ensures value { said result buffer.now ≡ content_reply buffer.now }
    // The reply can be written.
    ensures written { CanWrite (said result buffer.now) }
    ensures short { FitsReply result }
{
    Reply::Content {
        count: trimmed_len(whole(buffer)),
    }
}

/// How many bytes stand before the trailing zeros.
fn trimmed_len(bytes: &[u8]) -> usize
    ensures within { result ≤ length bytes.now }
    ensures trimmed { take result bytes.now ≡ trimmed bytes.now }
{
    let mut len = bytes.len();
    while len > 0 {
        if bytes[len - 1] != 0 {
            return len;
        }
        len -= 1;
    }
    len
}

/// Fills a block of 4,096 bytes: these bytes, and zeros up to its end.
fn fill_block(bytes: &[u8], block: &mut [u8])
    requires fits { length bytes.now ≤ 4096 }
    requires size { length block.old ≡ 4096 }
    ensures { block.new ≡ padded bytes.now }
{
    block.fill(0);
    block[..bytes.len()].copy_from_slice(bytes);
}

/// Maps a block of a session. After `Memory` the session is as before.
fn write_block(session: &mut Session, block: u64, bytes: &[u8]) -> Result<Reply, Memory>
    requires { length bytes.now ≤ 4096 }
    ensures ok { IfOk result (λ reply. (reply ≡ Reply.Done) × (session.new ≡ written session.old block bytes.now)) }
    ensures err { OnErr result (session.new ≡ session.old) }
{
    let mut content = [0; BLOCK];
    fill_block(bytes, &mut content);
    session.contents.insert(block, content)?;
    session.touched = true;
    Ok(Reply::Done)
}

/// Unmaps a block of a session.
fn trim_block(session: &mut Session, block: u64) -> Reply
    ensures reply { result ≡ Reply.Done }
    ensures session { session.new ≡ unmapped session.old block }
{
    if session.contents.remove(block) {
        session.touched = true;
    }
    Reply::Done
}
