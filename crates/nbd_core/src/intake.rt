//! What came of an input, and isn't used yet.
ghost use Rattle.std.specs.Prelude.{◌≡◌, ◌⊎◌, ◌+◌, ◌-◌, ◌<◌, ◌≤◌, ◌++◌, ℕ, List, [], IfOk, IfErr, OnOk, OnErr, true, false, length, take, drop};
ghost use Rattle.sdbt_base.specs.Faults.{Tells};
ghost use Rattle.sdbt_base.specs.Told.{Gave, IsAtEnd, ends_after};
ghost use Rattle.nbd_core.specs.Room.{Room, Takes, Came, IsShorter};
ghost use Rattle.nbd_core.specs.Passed.{Passed};
ghost use Rattle.nbd_core.specs.Stops.{EndsOnce, TellsTake};

use crate::stop::Stop;
use sdbt_base::{Memory, Source, SourceFault};
use std::alloc::Global;
use std::marker::Model;

/// The most bytes that one take asks for.
const PIECE: usize = 65_536;

/// The most bytes that can be asked for at once.
pub const MOST: usize = 4_096;

/// Bytes that came, one behind the other: those of the room between `from` and `to` aren't used
/// yet. So what is read lies in one place, and is taken in large pieces.
#[derive(Drop)]
pub struct Intake {
    room: Vec<u8>,
    from: usize,
    to: usize,
    left: u64,
}

impl Model for Intake {
    ghost use Rattle.std.specs.Prelude.{◌≡◌, ◌-◌, ◌≤◌, length, take, drop};
    ghost use Rattle.nbd_core.specs.Room.{Room};

    ghost Value = { Room };

    ghost view = { λ s. record { ahead = take (s.to - s.from) (drop s.from s.room.items); left = s.left } };

    ghost invariant = { λ s. (s.from ≤ s.to) × (s.to ≤ 69632) × (length s.room.items ≡ 69632) };
}

impl Intake {
    /// Nothing has come yet, and at most so many bytes may be taken.
    pub fn new(alloc: Global, most: u64) -> Result<Intake, Memory>
        ensures { IfOk result (λ intake. (intake.ahead ≡ []) × (intake.left ≡ most)) }
    {
        let room = vec![in alloc; 0; MOST + PIECE]?;
        Ok(Intake {
            room,
            from: 0,
            to: 0,
            left: most,
        })
    }

    /// The bytes that are there.
    pub fn ahead(&self) -> &[u8]
        ensures { result.now ≡ self.now.ahead }
    {
        &self.room[self.from..self.to]
    }

    /// How many bytes are there.
    pub fn count(&self) -> usize
        ensures { result ≡ length self.now.ahead }
    {
        self.to - self.from
    }

    /// Uses so many of them.
    pub fn skip(&mut self, count: usize)
        requires { count ≤ length self.old.ahead }
        ensures ahead { self.new.ahead ≡ drop count self.old.ahead }
        ensures left { self.new.left ≡ self.old.left }
    {
        self.from += count;
    }

    /// Takes until so many bytes are there, at most 4,096. Answers false where the input ends
    /// before.
    pub fn need<I: Source>(&mut self, input: &mut I, count: usize) -> Result<bool, Stop>
        requires { count ≤ 4096 }
        ensures came { Came (I.left input.old) (I.left input.new) self.old self.new.left
            (IsShorter count) self.new.ahead }
        ensures there { IfOk result (λ there. there ≡ true → count ≤ length self.new.ahead) }
        ensures end { IfOk result (λ there. there ≡ false
            → IsAtEnd (I.left input.new) × (length self.new.ahead < count)) }
        ensures short { OnErr result (length self.new.ahead < count) }
        ensures ended { EndsOnce result (λ there. there ≡ true) (I.ends input.old) (I.ends input.new) }
        ensures limit { IfErr result (λ stop. stop ≡ Stop.Limit → self.new.left ≡ 0) }
        ensures input { IfErr result (λ stop. (stop ≡ Stop.Source) ⊎ (stop ≡ Stop.Limit)) }
        ensures fell { I.faults input.old ≤ I.faults input.new }
        ensures cause { TellsTake result (I.faults input.old) (I.faults input.new) }
    {
        while self.count() < count {
            match self.more(input) {
                Ok(count) if count > 0 => {}
                Ok(_) => return Ok(false),
                Err(stop) => return Err(stop),
            }
        }
        Ok(true)
    }

    /// Lets the next bytes of the input go, so many, which need not fit the room. Answers false
    /// where the input ends before.
    pub fn pass<I: Source>(&mut self, input: &mut I, count: u64) -> Result<bool, Stop>
        ensures passed { Passed (I.left input.old)
            (I.left input.new) self.old self.new count result }
        ensures limit { IfErr result (λ stop. stop ≡ Stop.Limit → self.new.left ≡ 0) }
        ensures input { IfErr result (λ stop. (stop ≡ Stop.Source) ⊎ (stop ≡ Stop.Limit)) }
        ensures end { IfOk result (λ whole. whole ≡ false → IsAtEnd (I.left input.new)) }
        ensures ended { EndsOnce result (λ whole. whole ≡ true) (I.ends input.old) (I.ends input.new) }
        ensures fell { I.faults input.old ≤ I.faults input.new }
        ensures cause { TellsTake result (I.faults input.old) (I.faults input.new) }
    {
        let mut left = count;
        while left > 0 {
            match self.need(input, 1) {
                Ok(true) => {}
                Ok(false) => return Ok(false),
                Err(stop) => return Err(stop),
            }
            let here = (self.count() as u64).min(left);
            self.skip(here as usize);
            left -= here;
        }
        Ok(true)
    }

    /// Takes once, behind what is there.
    fn more<I: Source>(&mut self, input: &mut I) -> Result<usize, Stop>
        requires { length self.old.ahead < 4096 }
        ensures takes { Takes (I.left input.old) (I.left input.new) self.old self.new }
        ensures more { IfOk result (λ count. length self.new.ahead
            ≡ length self.old.ahead + count) }
        ensures end { IfOk result (λ count. count ≡ 0 → IsAtEnd (I.left input.new)) }
        ensures ended { EndsOnce result (λ count. 0 < count) (I.ends input.old) (I.ends input.new) }
        ensures same { OnErr result (self.new ≡ self.old) }
        ensures limit { IfErr result (λ stop. stop ≡ Stop.Limit → self.new.left ≡ 0) }
        ensures input { IfErr result (λ stop. (stop ≡ Stop.Source) ⊎ (stop ≡ Stop.Limit)) }
        ensures fell { I.faults input.old ≤ I.faults input.new }
        ensures cause { TellsTake result (I.faults input.old) (I.faults input.new) }
    {
        let here = self.to - self.from;
        settle(&mut self.room, self.from, self.to);
        self.from = 0;
        self.to = here;
        let most = self.left.min(PIECE as u64) as usize;
        if most == 0 {
            return Err(Stop::Limit);
        }
        let Ok(count) = take_behind(&mut self.room, here, most, input) else {
            return Err(Stop::Source);
        };
        self.to += count;
        self.left -= count as u64;
        Ok(count)
    }
}

/// Moves the bytes of a room from one place up to another to its front.
fn settle(room: &mut [u8], from: usize, to: usize)
    requires { (from ≤ to) × (to ≤ length room.old) }
    ensures front { take (to - from) room.new ≡ take (to - from) (drop from room.old) }
    ensures size { length room.new ≡ length room.old }
{
    room.copy_within(from..to, 0);
}

/// Takes so many bytes at most, and puts them into a room from a place on.
fn take_behind<I: Source>(
    room: &mut [u8],
    at: usize,
    most: usize,
    input: &mut I,
) -> Result<usize, SourceFault>
    requires { (0 < most) × (at + most ≤ length room.old) }
    ensures taken { IfOk result (λ count. (bytes : List ℕ) × (length bytes ≡ count)
        × Gave (I.left input.old) bytes (I.left input.new)
        × (take (at + count) room.new ≡ take at room.old ++ bytes)) }
    ensures bound { IfOk result (λ count. count ≤ most) }
    ensures end { IfOk result (λ count. count ≡ 0 → IsAtEnd (I.left input.new)) }
    ensures ended { I.ends input.new ≡ ends_after result (I.ends input.old) }
    ensures front { take at room.new ≡ take at room.old }
    ensures size { length room.new ≡ length room.old }
    ensures nothing_taken { OnErr result (I.left input.new ≡ I.left input.old) }
    ensures fell { I.faults input.old ≤ I.faults input.new }
    ensures cause { Tells result (I.faults input.old) (I.faults input.new) }
{
    match input.take(&mut room[at..at + most]) {
        Ok(count) => Ok(count),
        Err(fault) => Err(fault),
    }
}
