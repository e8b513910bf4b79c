//! A commit that is ready but for its root record.
ghost use Rattle.std.specs.Prelude.{◌≡◌, Some, OnOk, IfOk};
ghost use Rattle.sdbt_base.specs.Faults.{Tells};
ghost use Rattle.platform.specs.Image.{with_cell, IsEither};
ghost use Rattle.platform.specs.History.{Steps};
ghost use Rattle.root_codec.specs.RootRecord.{FitsRoot, root_bytes};
ghost use Rattle.shadow_commit.specs.Finishing.{Swaps};

use cert_maker::Cert;
use platform::Platform;
use root_codec::{Root, encode_root};
use sdbt_base::{Line, PlatformFault, ROOT};

/// A commit whose pages are on the medium and synced: what is left to do is to replace the root record. Its certificate's
/// line comes first.
pub struct Prepared {
    pub(crate) root: Root,
    pub(crate) cert: Cert,
    pub(crate) line: Line,
}

impl Prepared {
    /// The root record that makes the commit once it is in the cell.
    pub fn root(&self) -> &Root
        ensures { result.now ≡ self.now.root }
    {
        &self.root
    }

    /// What the commit adds, lets go and never kept.
    pub fn cert(&self) -> &Cert
        ensures { result.now ≡ self.now.cert }
    {
        &self.cert
    }

    /// The ledger's entry of the certificate.
    pub fn line(&self) -> &[u8]
        ensures { result.now ≡ self.now.line }
    {
        self.line.bytes()
    }

    /// Replaces the root record, in the one step that makes the commit, and answers the new one. After a fault the cell holds the
    /// old one or the new one.
    pub fn finish<P: Platform>(self, platform: &mut P) -> Result<Root, PlatformFault>
        requires { FitsRoot self.root }
        ensures root { IfOk result (λ root. root ≡ self.root) }
        ensures swapped { P.tells → OnOk result ((P.history platform.new).present ≡ with_cell (P.history platform.old).present (Some (root_bytes self.root))) }
        ensures either { P.tells → IsEither (P.history platform.old).present (with_cell (P.history platform.old).present (Some (root_bytes self.root))) (P.history platform.new).present }
        ensures time { P.tells → Steps (P.history platform.old) (P.history platform.new) }
        ensures beside { Swaps P.Platform platform.old platform.new }
        ensures cause { Tells result (P.faults platform.old) (P.faults platform.new) }
    {
        let Prepared {
            root,
            cert: _cert,
            line: _line,
        } = self;
        let mut bytes = [0; ROOT];
        encode_root(&root, &mut bytes);
        platform.swap_root(&bytes)?;
        Ok(root)
    }

    /// Gives the commit up: its pages stay on the medium, and nothing names them.
    pub fn abandon(self) {
        let Prepared {
            root: _root,
            cert: _cert,
            line: _line,
        } = self;
    }
}
