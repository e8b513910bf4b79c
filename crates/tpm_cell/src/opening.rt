//! A platform in a folder that exists, with its root record in a TPM.
ghost use Rattle.std.specs.Prelude.{◌≡◌, false, IfOk, IfErr};
ghost use Rattle.tpm_cell.specs.Opening.{ShowsFolderCause};
ghost use Rattle.tpm_cell.specs.declared.opening.TpmNotReady.TheVariants.{Cell, Folder};

use crate::{CellRefusal, InTpm, LookInTpm, StdTpm, TpmCell, open_tpm};
use folder_files::{LockFile, look_at_pages, pages_in_folder};
use folder_platform::{FolderPlatform, FolderView, OpenRefusal};
use platform::Platform;
use std::rt::Files;
use tpm_nv::OnTpm;

/// The device file that a TPM is behind where none is named: the kernel's, which many programs may have open.
pub const TPM_DEVICE: &str = "/dev/tpmrm0";

/// Why a folder and an index of a TPM can't be opened as a platform.
#[derive(Clone, Copy, Debug)]
pub enum TpmNotReady {
    /// The index can't be its cell.
    Cell(CellRefusal),
    /// The folder can't be that of its medium.
    Folder(OpenRefusal),
}

impl From<CellRefusal> for TpmNotReady {
    ghost from_gives = { λ refusal told. told ≡ Cell refusal };

    fn from(refusal: CellRefusal) -> TpmNotReady {
        TpmNotReady::Cell(refusal)
    }
}

impl From<OpenRefusal> for TpmNotReady {
    ghost from_gives = { λ refusal told. told ≡ Folder refusal };

    fn from(refusal: OpenRefusal) -> TpmNotReady {
        TpmNotReady::Folder(refusal)
    }
}

/// The platform whose root record is in an index of a TPM, and whose medium is in a folder that exists.
///
/// The index is looked at and read once first of all, and nothing is changed anywhere where it is refused. As long as the
/// platform is there, it has the lock on `media`. Nothing keeps out another program that has the index too.
pub fn open_in_tpm<R: Files + Alloc + Clone + Drop>(
    rt: &R,
    cell: &OnTpm<'_>,
    folder: &str,
) -> Result<FolderPlatform<InTpm<R, StdTpm<R::File>>>, TpmNotReady>
where
    R::File: LockFile,
    ensures faults { IfOk result (λ platform. ⟦<FolderPlatform<InTpm<R, StdTpm<R::File>>> as Platform>⟧.faults platform ≡ 0) }
    ensures sound { IfOk result (λ platform. platform.is_stuck ≡ false) }
    // That another has a lock is said only where a file says that it is held.
    ensures cause { IfErr result (ShowsFolderCause ((held : R.File) × R.File.is_held held)) }
{
    let tpm = open_tpm(rt, cell.device.unwrap_or(TPM_DEVICE))?;
    let cell = TpmCell::open(tpm, cell.index)?;
    let pages = pages_in_folder(rt, folder)?;
    Ok(FolderPlatform::open(InTpm::new(pages, cell))?)
}

/// The same platform, which is only looked at: nothing is written to the index, and nothing is changed in the folder. As long as it is
/// there, it has the shared lock on `media`, if that is there.
pub fn view_in_tpm<R: Files + Alloc + Clone + Drop>(
    rt: &R,
    cell: &OnTpm<'_>,
    folder: &str,
) -> Result<FolderView<LookInTpm<R, StdTpm<R::File>>>, TpmNotReady>
where
    R::File: LockFile,
    ensures faults { IfOk result (λ view. ⟦<FolderView<LookInTpm<R, StdTpm<R::File>>> as Platform>⟧.faults view ≡ 0) }
    ensures cause { IfErr result (ShowsFolderCause ((held : R.File) × R.File.is_held held)) }
{
    let tpm = open_tpm(rt, cell.device.unwrap_or(TPM_DEVICE))?;
    let cell = TpmCell::open(tpm, cell.index)?;
    let pages = look_at_pages(rt, folder)?;
    Ok(FolderView::open(LookInTpm::new(pages, cell))?)
}
