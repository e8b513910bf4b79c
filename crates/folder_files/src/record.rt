//! A record of calls on files, which only clauses read.
ghost use Rattle.std.specs.Prelude.{◌≡◌, List, [], ◌∷◌};
ghost use Rattle.std.specs.Borrow.{ftrue};
ghost use Rattle.folder_platform.specs.Events.{Event};
ghost use Rattle.folder_files.specs.Note.{event_of};

use folder_platform::FileCall;
use std::marker::{Model, PhantomData};

/// The calls so far with their answers, the newest first. It takes no memory.
#[derive(Drop)]
pub struct Record {
    marker: PhantomData<u8>,
    pub ghost events: { List Event },
}

/// A call with its answer, but for bytes.
#[derive(Clone, Copy)]
struct Noted {
    call: FileCall,
    number: u64,
    is_done: bool,
}

impl Model for Record {
    ghost also_owns = { λ _. ftrue };
}

impl Record {
    /// No call.
    pub fn new() -> Record
        ensures { result.events ≡ [] }
    {
        Record {
            marker: PhantomData,
        }
    }

    /// Notes a call with its answer: an address or a number, whether it was done, and bytes.
    pub fn note(&mut self, call: FileCall, number: u64, is_done: bool, bytes: &[u8])
        ensures { self.new.events ≡ (call, number, is_done, bytes.now) ∷ self.old.events }
    {
        let noted = Noted {
            call,
            number,
            is_done,
        };
        self.add(&[noted], bytes);
    }

    // The same by slices: one call, and its bytes.
    fn add(&mut self, _call: &[Noted], _bytes: &[u8])
        ensures { self.new.events ≡ event_of _call.now _bytes.now ∷ self.old.events }
    {}
}
