ghost use Rattle.std.specs.Prelude.{◌≡◌, ◌↔◌, ◌<◌, ◌≤◌, ◌+◌, ◌^◌, ℕ, Some, None, IsTrue, IsSome, IfOk, OnOk, length, slice_get};
ghost use Rattle.sdbt_base.specs.Faults.{Tells};
ghost use Rattle.sdbt_base.specs.Rises.{MayRiseByOne, CountsOnce};
ghost use Rattle.platform.specs.Image.{with_page, with_cell, all_synced, IsEither, MayHavePage};
ghost use Rattle.platform.specs.History.{History, Steps};

use sdbt_base::{MAX_PAGES, PlatformFault, RECORD, ROOT};

/// A medium of pages of `RECORD` bytes, of which none can be taken back, and a root cell of `ROOT` bytes,
/// which can be replaced or cleared without a trace. Both have one clock.
///
/// A loss of power at a moment keeps the cell and what was recorded, and the pages that were synced read
/// as before; a page that was not may then read as any page.
pub trait Platform {
    /// Whether the platform tells its history. A type tells it always, or never.
    ghost tells: { Type 0 };

    /// The images of all moments so far.
    ghost history: { Self → History };

    /// How many pages were ever handed over.
    ghost head: { Self → ℕ };

    /// How many pages the medium can have at most.
    ghost capacity: { Self → ℕ };

    /// How many reads were answered, of pages and of the cell.
    ghost reads: { Self → ℕ };

    /// How many of those were of pages.
    ghost page_reads: { Self → ℕ };

    /// How often the pages were synced, or the cell was replaced or cleared.
    ghost changes: { Self → ℕ };

    /// How often the platform has failed; it never falls.
    ghost faults: { Self → ℕ };

    /// How many pages were ever handed over.
    fn head(&self) -> u64
        ensures value { result ≡ head self.now }
        ensures room { head self.now ≤ capacity self.now }
        ensures limit { capacity self.now ≤ MAX_PAGES };

    /// How many pages the medium can have, at most `MAX_PAGES`.
    fn capacity(&self) -> u64
        ensures value { result ≡ capacity self.now }
        ensures limit { capacity self.now ≤ MAX_PAGES };

    /// Hands a page of `RECORD` bytes over for good and answers its address, the head from before.
    /// After a fault the page was handed over or was not, as the head tells, and may read as anything.
    fn append(&mut self, page: &[u8]) -> Result<u64, PlatformFault>
        requires size { length page.now ≡ RECORD }
        requires room { head self.old < capacity self.old }

        ensures address { IfOk result (λ address.
            (address ≡ head self.old) × (head self.new ≡ head self.old + 1)) }
        ensures appended { tells → OnOk result
            ((history self.new).present ≡ with_page (history self.old).present page.now page.now) }
        ensures either { tells → MayHavePage (history self.old).present page.now
            (history self.new).present }
        ensures cell { tells → (history self.new).present.cell ≡ (history self.old).present.cell }
        ensures time { tells → Steps (history self.old) (history self.new) }

        ensures head { MayRiseByOne (head self.old) (head self.new) }
        ensures capacity { capacity self.new ≡ capacity self.old }
        ensures counts { tells → (reads self.new ≡ reads self.old)
            × (page_reads self.new ≡ page_reads self.old) × (changes self.new ≡ changes self.old) }
        ensures faults { faults self.old ≤ faults self.new }
        ensures cause { Tells result (faults self.old) (faults self.new) };

    /// Reads a page. After a fault the buffer may hold anything.
    fn read(&mut self, addr: u64, into: &mut [u8]) -> Result<(), PlatformFault>
        requires size { length into.old ≡ RECORD }
        requires within { addr < head self.old }

        ensures page { tells → OnOk result
            (slice_get (history self.old).present.readable addr ≡ Some into.new) }
        ensures image { tells → (history self.new).present ≡ (history self.old).present }
        ensures time { tells → Steps (history self.old) (history self.new) }

        ensures head { head self.new ≡ head self.old }
        ensures capacity { capacity self.new ≡ capacity self.old }
        ensures reads_ok { tells → OnOk result (reads self.new ≡ reads self.old + 1) }
        ensures reads { tells → MayRiseByOne (reads self.old) (reads self.new) }
        ensures pages_alone { tells → (page_reads self.new + reads self.old ≡ page_reads self.old + reads self.new)
            × (changes self.new ≡ changes self.old) }
        ensures faults { faults self.old ≤ faults self.new }
        ensures cause { Tells result (faults self.old) (faults self.new) };

    /// Makes every page that was handed over outlast a loss of power. After a fault all of that was done, or nothing.
    fn sync(&mut self) -> Result<(), PlatformFault>
        ensures synced { tells → OnOk result
            ((history self.new).present ≡ all_synced (history self.old).present) }
        ensures either { tells → IsEither (history self.old).present
            (all_synced (history self.old).present) (history self.new).present }
        ensures cell { tells → (history self.new).present.cell ≡ (history self.old).present.cell }
        ensures time { tells → Steps (history self.old) (history self.new) }

        ensures head { head self.new ≡ head self.old }
        ensures capacity { capacity self.new ≡ capacity self.old }
        ensures reads { tells → (reads self.new ≡ reads self.old) × (page_reads self.new ≡ page_reads self.old) }
        ensures changes { tells → CountsOnce result (changes self.old) (changes self.new) }
        ensures faults { faults self.old ≤ faults self.new }
        ensures cause { Tells result (faults self.old) (faults self.new) };

    /// Whether the root cell holds a record, which is then put into the buffer of `ROOT` bytes.
    fn load_root(&mut self, into: &mut [u8]) -> Result<bool, PlatformFault>
        requires size { length into.old ≡ ROOT }

        ensures full { tells → IfOk result
            (λ full. IsTrue full ↔ IsSome (history self.old).present.cell) }
        ensures bytes { tells → IfOk result
            (λ full. IsTrue full → (history self.old).present.cell ≡ Some into.new) }
        ensures image { tells → (history self.new).present ≡ (history self.old).present }
        ensures time { tells → Steps (history self.old) (history self.new) }

        ensures head { head self.new ≡ head self.old }
        ensures capacity { capacity self.new ≡ capacity self.old }
        ensures reads_ok { tells → OnOk result (reads self.new ≡ reads self.old + 1) }
        ensures reads { tells → MayRiseByOne (reads self.old) (reads self.new)
            × (page_reads self.new ≡ page_reads self.old) × (changes self.new ≡ changes self.old) }
        ensures faults { faults self.old ≤ faults self.new }
        ensures cause { Tells result (faults self.old) (faults self.new) };

    /// Puts a record of `ROOT` bytes in the place of what the cell held. After a fault it holds the one or the other.
    fn swap_root(&mut self, bytes: &[u8]) -> Result<(), PlatformFault>
        requires size { length bytes.now ≡ ROOT }

        ensures swapped { tells → OnOk result
            ((history self.new).present ≡ with_cell (history self.old).present (Some bytes.now)) }
        ensures either { tells → IsEither (history self.old).present
            (with_cell (history self.old).present (Some bytes.now)) (history self.new).present }
        ensures time { tells → Steps (history self.old) (history self.new) }

        ensures head { head self.new ≡ head self.old }
        ensures capacity { capacity self.new ≡ capacity self.old }
        ensures reads { tells → (reads self.new ≡ reads self.old) × (page_reads self.new ≡ page_reads self.old) }
        ensures changes { tells → CountsOnce result (changes self.old) (changes self.new) }
        ensures faults { faults self.old ≤ faults self.new }
        ensures cause { Tells result (faults self.old) (faults self.new) };

    /// Empties the cell, without a trace of what it held. After a fault it holds that or nothing.
    fn clear_root(&mut self) -> Result<(), PlatformFault>
        ensures cleared { tells → OnOk result
            ((history self.new).present ≡ with_cell (history self.old).present None) }
        ensures either { tells → IsEither (history self.old).present
            (with_cell (history self.old).present None) (history self.new).present }
        ensures time { tells → Steps (history self.old) (history self.new) }

        ensures head { head self.new ≡ head self.old }
        ensures capacity { capacity self.new ≡ capacity self.old }
        ensures reads { tells → (reads self.new ≡ reads self.old) × (page_reads self.new ≡ page_reads self.old) }
        ensures changes { tells → CountsOnce result (changes self.old) (changes self.new) }
        ensures faults { faults self.old ≤ faults self.new }
        ensures cause { Tells result (faults self.old) (faults self.new) };

    /// Where the history is told, the recorded pages are as many as the head says.
    ghost counts_pages: { tells → (platform : Self) → length (history platform).present.recorded ≡ head platform };

    /// No more pages were handed over than the medium can have.
    ghost has_room: { (platform : Self) → head platform ≤ capacity platform };

    /// Addresses fit the root record's field.
    ghost is_limited: { (platform : Self) → capacity platform ≤ 2 ^ 32 };
}
