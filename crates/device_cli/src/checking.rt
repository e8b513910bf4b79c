//! The word `check`: judges a ledger for the root record in the cell.
ghost use Rattle.std.specs.Prelude.{◌≡◌, ◌≤◌, ◌+◌, OnOk, OnErr};
ghost use Rattle.sdbt_base.specs.Told.{Got, GotPart};
ghost use Rattle.platform.specs.History.{Steps};
ghost use Rattle.page_store.specs.Reading.{MayLook};
ghost use Rattle.device_terms.specs.Served.{IsServedImage};
ghost use Rattle.line_run.specs.Puts.{TellsPut};
ghost use Rattle.line_run.specs.Stops.{IsBlamedOn};
ghost use Rattle.sdbt_base.specs.Counts.{counts};
ghost use Rattle.device_cli.specs.Checks.{Checks, IsJudged, Looked, finding_line, status_of_finding};

use arrayvec::ArrayVec;
use ledger_check::{JudgeRefusal, judge};
use line_run::{Stop, push_text};
use platform::Platform;
use root_codec::Root;
use sdbt_base::{Sink, Source};
use session_calls::{DeviceStop, check_cell};
use std::alloc::Global;

/// What a check found.
#[derive(Clone, Copy, Debug, PartialEq, Eq)]
pub(crate) enum Finding {
    /// The cell is empty.
    NoDevice,
    /// The cell is full, and not with a root record that is served.
    BadRoot,
    /// The ledger breaks this rule first, as this value shows.
    Broken {
        number: u8,
        value: u64,
    },
    /// The ledger is accepted: the number of the last commit, how many addresses are live, and how many are deleted.
    Accepted {
        commit: u64,
        live: u64,
        deleted: u64,
    },
}

impl Finding {
    /// The exit status.
    pub(crate) fn status(self) -> u8
        ensures { result ≡ status_of_finding self }
    {
        match self {
            Finding::Accepted { .. } => 0,
            Finding::BadRoot => 8,
            Finding::NoDevice | Finding::Broken { .. } => 10,
        }
    }
}

/// Judges the ledger that the input gives for the root record in the cell, and puts the line that says what was found. Where
/// there is no root record that can be served, nothing is taken.
pub(crate) fn check<P: Platform, I: Source, O: Sink>(
    alloc: Global,
    platform: &mut P,
    input: &mut I,
    output: &mut O,
) -> Result<Finding, Stop>
    ensures ended { I.ends input.new ≤ I.ends input.old + 1 }
    ensures checks { Checks P.tells (P.history platform.old).present (I.left input.old) (I.left input.new) (O.written output.old) (O.written output.new) result }
    ensures blame { IsBlamedOn (counts (P.faults platform.old) 0 (I.faults input.old) (O.faults output.old) 0)
        (counts (P.faults platform.new) 0 (I.faults input.new) (O.faults output.new) 0) result }
    ensures untaken { P.tells → (IsServedImage (P.history platform.old).present → ⊥) → input.new ≡ input.old }
    ensures image { P.tells → (P.history platform.new).present ≡ (P.history platform.old).present }
    ensures time { P.tells → Steps (P.history platform.old) (P.history platform.new) }
    ensures head { P.head platform.new ≡ P.head platform.old }
    ensures capacity { P.capacity platform.new ≡ P.capacity platform.old }
    ensures reads { P.tells → MayLook P.Platform platform.old platform.new }
{
    let finding = find(alloc, platform, input)?;
    put_finding(finding, output)?;
    Ok(finding)
}

/// What a check finds.
fn find<P: Platform, I: Source>(
    alloc: Global,
    platform: &mut P,
    input: &mut I,
) -> Result<Finding, Stop>
    ensures ended { I.ends input.new ≤ I.ends input.old + 1 }
    ensures looked { Looked P.tells (P.history platform.old).present (I.left input.old) (I.left input.new) result }
    ensures blame { IsBlamedOn (counts (P.faults platform.old) 0 (I.faults input.old) 0 0)
        (counts (P.faults platform.new) 0 (I.faults input.new) 0 0) result }
    ensures untaken { P.tells → (IsServedImage (P.history platform.old).present → ⊥) → input.new ≡ input.old }
    ensures image { P.tells → (P.history platform.new).present ≡ (P.history platform.old).present }
    ensures time { P.tells → Steps (P.history platform.old) (P.history platform.new) }
    ensures head { P.head platform.new ≡ P.head platform.old }
    ensures capacity { P.capacity platform.new ≡ P.capacity platform.old }
    ensures reads { P.tells → MayLook P.Platform platform.old platform.new }
{
    match check_cell(platform) {
        Ok(Some(root)) => judge_for(alloc, &root, input),
        Ok(None) => Ok(Finding::NoDevice),
        Err(DeviceStop::BadRoot) => Ok(Finding::BadRoot),
        Err(stop) => Err(Stop::Device(stop)),
    }
}

/// What the ledger that the input gives is found to be for a root record.
fn judge_for<I: Source>(alloc: Global, root: &Root, input: &mut I) -> Result<Finding, Stop>
    ensures ended { I.ends input.new ≤ I.ends input.old + 1 }
    ensures judged { IsJudged root.now (I.left input.old) (I.left input.new) result }
    ensures blame { IsBlamedOn (counts 0 0 (I.faults input.old) 0 0) (counts 0 0 (I.faults input.new) 0 0) result }
{
    match judge(alloc, input, root) {
        Ok(verdict) => Ok(Finding::Accepted {
            commit: verdict.commit,
            live: verdict.live.len() as u64,
            deleted: verdict.deleted,
        }),
        Err(JudgeRefusal::Rule { number, value }) => Ok(Finding::Broken { number, value }),
        Err(JudgeRefusal::Source) => Err(Stop::Source),
        Err(JudgeRefusal::Limit) => Err(Stop::Limit),
        Err(JudgeRefusal::Memory) => Err(Stop::Device(DeviceStop::Memory)),
    }
}

/// Puts the line that says what was found.
fn put_finding<O: Sink>(finding: Finding, output: &mut O) -> Result<(), Stop>
    ensures put { OnOk result (Got (O.written output.old) (finding_line finding) (O.written output.new)) }
    ensures part { OnErr result (GotPart (O.written output.old) (finding_line finding) (O.written output.new)) }
    ensures stop { TellsPut result (O.faults output.old) (O.faults output.new) }
    ensures count { O.faults output.old ≤ O.faults output.new }
{
    match output.put(finding_text(finding).as_slice()) {
        Ok(()) => Ok(()),
        Err(_) => Err(Stop::Sink),
    }
}

/// The line that says what was found. The longest one has 83 bytes.
#[tactic(auto, unfolding(crate::specs::Checks::finding_line, line_run::specs::Puts::damage_line))]
fn finding_text(finding: Finding) -> ArrayVec<u8, 96>
    ensures { result.items ≡ finding_line finding }
{
    let mut line = ArrayVec::new();
    match finding {
        Finding::NoDevice => push_text(&mut line, b"refused no device\n"),
        Finding::BadRoot => push_text(&mut line, b"bad root\n"),
        Finding::Broken { number, value } => {
            push_text(&mut line, b"refused rule ");
            push_text(&mut line, itoa::Buffer::new().format(number).as_bytes());
            push_text(&mut line, b" value ");
            push_text(&mut line, itoa::Buffer::new().format(value).as_bytes());
            push_text(&mut line, b"\n");
        }
        Finding::Accepted {
            commit,
            live,
            deleted,
        } => {
            push_text(&mut line, b"accepted commit ");
            push_text(&mut line, itoa::Buffer::new().format(commit).as_bytes());
            push_text(&mut line, b" live ");
            push_text(&mut line, itoa::Buffer::new().format(live).as_bytes());
            push_text(&mut line, b" deleted ");
            push_text(&mut line, itoa::Buffer::new().format(deleted).as_bytes());
            push_text(&mut line, b"\n");
        }
    }
    line
}
