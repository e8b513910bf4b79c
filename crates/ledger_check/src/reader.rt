//! Reads a ledger in pieces, line by line.
ghost use Rattle.std.specs.Prelude.{◌≡◌, ◌≢◌, ◌∷◌, ◌++◌, [], ℕ, List, IfOk, IsErr, OnOk};
ghost use Rattle.cert_codec.specs.Ledger.{IsLedger};
ghost use Rattle.ledger_check.specs.Reading.{Fed, HasRead};

use cert_checker::Checker;
use cert_codec::read_line;
use sdbt_base::Memory;
use std::alloc::Global;
use text_lines::split_line;

/// Feeds the certificates of a ledger that comes in pieces to a checker.
#[derive(Drop)]
pub(crate) struct LedgerReader {
    /// What was fed so far.
    checker: Checker,
    /// What came of a line whose line feed has not come yet.
    line: Vec<u8>,
}

impl LedgerReader {
    /// A reader that was given nothing. It takes no memory.
    pub(crate) fn new(alloc: Global) -> LedgerReader
        ensures { HasRead result [] }
    {
        LedgerReader {
            checker: Checker::new(alloc),
            line: Vec::new(alloc),
        }
    }

    /// Reads one piece more. A line that stands whole in it is read where it lies.
    pub(crate) fn read(&mut self, alloc: Global, piece: &[u8]) -> Result<(), Memory>
        ensures { (taken : List ℕ) → HasRead self.old taken → OnOk result (HasRead self.new (taken ++ piece.now)) }
    {
        let mut rest = piece;
        while let Some((front, behind)) = split_line(rest) {
            self.end_line(alloc, front)?;
            rest = behind;
        }
        self.line.extend_from_slice(rest)?;
        Ok(())
    }

    /// Reads the line that ends so.
    fn end_line(&mut self, alloc: Global, end: &[u8]) -> Result<(), Memory>
        ensures fed { OnOk result (Fed ((self.old.line.items ++ end.now) ∷ []) self.old.checker self.new.checker) }
        ensures line { OnOk result (self.new.line.items ≡ []) }
    {
        if self.line.is_empty() {
            return feed_line(alloc, &mut self.checker, end);
        }
        self.line.extend_from_slice(end)?;
        feed_line(alloc, &mut self.checker, &self.line)?;
        self.line.clear();
        Ok(())
    }

    /// Reads a last line that lacks its line feed. The checker was fed the whole ledger then.
    pub(crate) fn finish(self, alloc: Global) -> Result<Checker, Memory>
        ensures ledger { (taken : List ℕ) → HasRead self taken → IfOk result (IsLedger taken) }
        ensures some { IsErr result → self.line.items ≢ [] }
    {
        let LedgerReader { mut checker, line } = self;
        if !line.is_empty() {
            feed_line(alloc, &mut checker, &line)?;
        }
        Ok(checker)
    }
}

/// Feeds the certificate that a line spells, if it spells one.
fn feed_line(alloc: Global, checker: &mut Checker, line: &[u8]) -> Result<(), Memory>
    ensures { OnOk result (Fed (line.now ∷ []) checker.old checker.new) }
{
    match read_line(alloc, line)? {
        Some(cert) => checker.feed(cert),
        None => Ok(()),
    }
}
