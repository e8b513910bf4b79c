//! The word `seize`: tells what an adversary would open now.
ghost use Rattle.std.specs.Prelude.{◌≡◌, ◌≢◌, ◌≤◌, ◌⊎◌, ◌+◌, [], Option, IfErr, IfOk, OnOk, OnErr, IsErrOf, flat_map, length, map, string_bytes};
ghost use Rattle.sdbt_base.specs.Faults.{Rose, TellsOf};
ghost use Rattle.platform.specs.History.{Steps};
ghost use Rattle.page_store.specs.Reading.{MayLook};
ghost use Rattle.page_store.specs.Roots.{IsBadCell};
ghost use Rattle.seizure.specs.Looks.{Looks};
ghost use Rattle.seizure.specs.Reads.{ReadsFew};
ghost use Rattle.seizure.specs.Report.{BeginsSome, Holds};
ghost use Rattle.root_codec.specs.declared.root.Root.{Root};
ghost use Rattle.line_run.specs.Stops.{IsBlamedOn};
ghost use Rattle.sdbt_base.specs.Counts.{counts};
ghost use Rattle.line_run.specs.Puts.{HasPut, TellsPut};
ghost use Rattle.device_cli.specs.Seizing.{HasKeys, IsReport, IsReportOf, IsRefused, ReadsFewFor, Seizes, opened_line, counts_line, report_text};

use crate::given::keys_given;
use arrayvec::ArrayVec;
use key_graph::KeyList;
use line_run::{Stop, last_line, push_text, put_line};
use page_store::{CurrentRefusal, current};
use platform::Platform;
use sdbt_base::{Key, Memory, Sink};
use seizure::{Opened, Report, SeizeRefusal, seize_all};
use session_calls::DeviceStop;
use std::alloc::Global;

/// The kind byte of a data record.
const DATA: u8 = 1;

/// Puts what the root record in the cell and those that the words are open now: a line for each body, and one with their
/// numbers. Where the cell is full, and not with the root record of a root within the pages that there are, or a word is
/// none, one line says so.
pub(crate) fn seize_word<P: Platform, O: Sink>(
    alloc: Global,
    records: &[String],
    platform: &mut P,
    output: &mut O,
) -> Result<(), Stop>
    requires { length records.now ≤ 64 }
    ensures seizes { Seizes P.tells (P.head platform.old) (P.history platform.old).present (map string_bytes records.now) (O.written output.old) (O.written output.new) result }
    ensures blame { IsBlamedOn (counts (P.faults platform.old) 0 0 (O.faults output.old) 0)
        (counts (P.faults platform.new) 0 0 (O.faults output.new) 0) result }
    ensures image { P.tells → (P.history platform.new).present ≡ (P.history platform.old).present }
    ensures time { P.tells → Steps (P.history platform.old) (P.history platform.new) }
    ensures head { P.head platform.new ≡ P.head platform.old }
    ensures capacity { P.capacity platform.new ≡ P.capacity platform.old }
    ensures looked { P.tells → (Rose (P.faults platform.old) (P.faults platform.new) → ⊥) → P.reads platform.old + 1 ≤ P.reads platform.new }
    ensures reads { P.tells → ReadsFewFor (P.head platform.old) (P.history platform.old).present (map string_bytes records.now)
        (P.reads platform.old) (P.reads platform.new) }
    ensures unread { P.tells → IsRefused (P.head platform.old) (P.history platform.old).present (map string_bytes records.now)
        → P.page_reads platform.new ≡ P.page_reads platform.old }
{
    match find(alloc, records, platform) {
        Ok(report) => put_report(&report, output),
        Err(stop) => Err(last_line(stop, output)),
    }
}

/// What the root record in the cell and those that the words are open now. The cell is looked at first, and no page is
/// read where it or a word is refused.
fn find<P: Platform>(
    alloc: Global,
    records: &[String],
    platform: &mut P,
) -> Result<Report, DeviceStop>
    requires { length records.now ≤ 64 }
    ensures found { IfOk result (IsReportOf P.tells (P.head platform.old) (P.history platform.old).present (map string_bytes records.now)) }
    ensures bad_root { P.tells → IsErrOf result DeviceStop.BadRoot →
        IsRefused (P.head platform.old) (P.history platform.old).present (map string_bytes records.now) }
    ensures memory { P.tells → IsErrOf result DeviceStop.Memory →
        HasKeys (P.head platform.old) (P.history platform.old).present (map string_bytes records.now) }
    ensures stops { IfErr result (λ stop. (stop ≡ DeviceStop.BadRoot) ⊎ (stop ≡ DeviceStop.Memory) ⊎ (stop ≡ DeviceStop.Platform)) }
    ensures cause { TellsOf DeviceStop.Platform result (P.faults platform.old) (P.faults platform.new) }
    ensures looks { Looks P.Platform platform.old platform.new }
    ensures looked { P.tells → (IsErrOf result DeviceStop.Platform → ⊥) → P.reads platform.old + 1 ≤ P.reads platform.new }
    ensures reads { P.tells → ReadsFewFor (P.head platform.old) (P.history platform.old).present (map string_bytes records.now)
        (P.reads platform.old) (P.reads platform.new) }
    ensures unread { P.tells → IsRefused (P.head platform.old) (P.history platform.old).present (map string_bytes records.now)
        → P.page_reads platform.new ≡ P.page_reads platform.old }
{
    check_root(platform)?;
    match keys_given(records, platform.head()) {
        Some(keys) => open_all(alloc, keys.as_slice(), platform),
        None => Err(DeviceStop::BadRoot),
    }
}

/// What the root record in the cell and these keys open now.
fn open_all<P: Platform>(
    alloc: Global,
    keys: &[Key],
    platform: &mut P,
) -> Result<Report, DeviceStop>
    ensures found { P.tells → IfOk result (IsReport (P.head platform.old) (P.history platform.old).present keys.now) }
    ensures bad_root { P.tells → IsErrOf result DeviceStop.BadRoot →
        IsBadCell (P.head platform.old) (P.history platform.old).present.cell }
    ensures memory { P.tells → IsErrOf result DeviceStop.Memory → (keys.now ≢ []) ⊎
        BeginsSome (P.head platform.old) (P.history platform.old).present.cell keys.now }
    ensures stops { IfErr result (λ stop. (stop ≡ DeviceStop.BadRoot) ⊎ (stop ≡ DeviceStop.Memory) ⊎ (stop ≡ DeviceStop.Platform)) }
    ensures cause { TellsOf DeviceStop.Platform result (P.faults platform.old) (P.faults platform.new) }
    ensures looks { Looks P.Platform platform.old platform.new }
    ensures reads { P.tells → ReadsFew (P.head platform.old) (P.history platform.old).present.cell keys.now
        (P.history platform.old).present.readable (P.reads platform.old) (P.reads platform.new) }
{
    let Ok(keys) = listed(alloc, keys) else {
        return Err(DeviceStop::Memory);
    };
    match seize_all(alloc, platform, &keys) {
        Ok(report) => Ok(report),
        Err(SeizeRefusal::BadRoot) => Err(DeviceStop::BadRoot),
        Err(SeizeRefusal::PlatformFault) => Err(DeviceStop::Platform),
        Err(SeizeRefusal::Memory) => Err(DeviceStop::Memory),
    }
}

/// A list of these keys.
fn listed(alloc: Global, keys: &[Key]) -> Result<KeyList, Memory>
    ensures same { IfOk result (λ list. list ≡ keys.now) }
    ensures memory { OnErr result (keys.now ≢ []) }
{
    let mut list = KeyList::new(alloc);
    for key in keys {
        list.push(*key)?;
    }
    Ok(list)
}

/// Refuses a cell that is full, and not with the root record of a root within the pages that there are.
fn check_root<P: Platform>(platform: &mut P) -> Result<(), DeviceStop>
    ensures good { P.tells → OnOk result ((root : Option Root) ×
        Holds (P.head platform.old) (P.history platform.old).present.cell root) }
    ensures bad_root { P.tells → IsErrOf result DeviceStop.BadRoot →
        IsBadCell (P.head platform.old) (P.history platform.old).present.cell }
    ensures stops { IfErr result (λ stop. (stop ≡ DeviceStop.BadRoot) ⊎ (stop ≡ DeviceStop.Platform)) }
    ensures cause { TellsOf DeviceStop.Platform result (P.faults platform.old) (P.faults platform.new) }
    ensures looks { Looks P.Platform platform.old platform.new }
    ensures reads { P.tells → MayLook P.Platform platform.old platform.new }
    ensures looked { P.tells → (IsErrOf result DeviceStop.Platform → ⊥) → P.reads platform.new ≡ P.reads platform.old + 1 }
{
    match current(platform) {
        Ok(_) => Ok(()),
        Err(CurrentRefusal::BadRoot) => Err(DeviceStop::BadRoot),
        Err(CurrentRefusal::PlatformFault) => Err(DeviceStop::Platform),
    }
}

/// Puts the lines of a report: one for each body that was opened, and one with their numbers.
fn put_report<O: Sink>(report: &Report, output: &mut O) -> Result<(), Stop>
    ensures put { HasPut (report_text report.now) result (O.written output.old) (O.written output.new) }
    ensures stop { TellsPut result (O.faults output.old) (O.faults output.new) }
    ensures count { O.faults output.old ≤ O.faults output.new }
{
    if let Err(stop) = put_opened(report.opened(), output) {
        return Err(stop);
    }
    put_line(counts_text(report).as_slice(), output)
}

/// Puts a line for each body that was opened.
fn put_opened<O: Sink>(opened: &[Opened], output: &mut O) -> Result<(), Stop>
    ensures put { HasPut (flat_map opened_line opened.now) result (O.written output.old) (O.written output.new) }
    ensures stop { TellsPut result (O.faults output.old) (O.faults output.new) }
    ensures count { O.faults output.old ≤ O.faults output.new }
{
    for item in opened {
        if let Err(stop) = put_line(opened_text(item).as_slice(), output) {
            return Err(stop);
        }
    }
    Ok(())
}

/// The line of a body that was opened. The longest one has 53 bytes.
#[tactic(auto, unfolding(crate::specs::Seizing::opened_line))]
fn opened_text(opened: &Opened) -> ArrayVec<u8, 64>
    ensures { result.items ≡ opened_line opened.now }
{
    let mut line = ArrayVec::new();
    push_text(&mut line, b"open ");
    push_text(
        &mut line,
        itoa::Buffer::new().format(opened.addr).as_bytes(),
    );
    if opened.kind == DATA {
        push_text(&mut line, b" block ");
        push_text(
            &mut line,
            itoa::Buffer::new().format(opened.block).as_bytes(),
        );
    } else if opened.is_node() {
        push_text(&mut line, b" node");
    } else {
        push_text(&mut line, b" kind ");
        push_text(
            &mut line,
            itoa::Buffer::new().format(opened.kind).as_bytes(),
        );
    }
    push_text(&mut line, b"\n");
    line
}

/// The line with the numbers of a report. The longest one has 89 bytes.
#[tactic(auto, unfolding(crate::specs::Seizing::counts_line))]
fn counts_text(report: &Report) -> ArrayVec<u8, 96>
    ensures { result.items ≡ counts_line report.now }
{
    let mut line = ArrayVec::new();
    push_text(&mut line, b"seized pages ");
    push_text(
        &mut line,
        itoa::Buffer::new().format(report.pages()).as_bytes(),
    );
    push_text(&mut line, b" nodes ");
    push_text(
        &mut line,
        itoa::Buffer::new().format(report.nodes()).as_bytes(),
    );
    push_text(&mut line, b" blocks ");
    push_text(
        &mut line,
        itoa::Buffer::new().format(report.blocks()).as_bytes(),
    );
    push_text(&mut line, b"\n");
    line
}
