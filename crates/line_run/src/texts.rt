//! Lines of text that are made in place, and put.
ghost use Rattle.std.specs.Prelude.{◌≡◌, ◌≤◌, ◌⊎◌, ◌+◌, ◌++◌, length};
ghost use Rattle.sdbt_base.specs.Faults.{Rose};
ghost use Rattle.sdbt_base.specs.Told.{Got, GotPart};
ghost use Rattle.line_run.specs.Puts.{HasPut, TellsPut, damage_line};
ghost use Rattle.line_run.specs.Stops.{IsSound};
ghost use Rattle.arrayvec.specs.ArrayVec.{array_vec_len};

use crate::stop::Stop;
use arrayvec::ArrayVec;
use sdbt_base::Sink;
use session_calls::DeviceStop;

/// Puts a text at the end of a line that has room for it.
pub fn push_text<const ROOM: usize>(line: &mut ArrayVec<u8, ROOM>, text: &[u8])
    requires { array_vec_len line.old + length text.now ≤ ROOM }
    ensures { line.new.items ≡ line.old.items ++ text.now }
{
    let _ = line.try_extend_from_slice(text);
}

/// Puts a line, or some lines.
pub fn put_line<O: Sink>(line: &[u8], output: &mut O) -> Result<(), Stop>
    ensures put { HasPut line.now result (O.written output.old) (O.written output.new) }
    ensures stop { TellsPut result (O.faults output.old) (O.faults output.new) }
    ensures count { O.faults output.old ≤ O.faults output.new }
{
    match output.put(line) {
        Ok(()) => Ok(()),
        Err(_) => Err(Stop::Sink),
    }
}

/// Puts the last line of a run that met a record or a root record which does not fit.
pub fn last_line<O: Sink>(stop: DeviceStop, output: &mut O) -> Stop
    ensures stop { ((result ≡ Stop.Device stop) × Got (O.written output.old) (damage_line stop) (O.written output.new)
        × (O.faults output.new ≡ O.faults output.old))
        ⊎ ((result ≡ Stop.Sink) × Rose (O.faults output.old) (O.faults output.new)
        × GotPart (O.written output.old) (damage_line stop) (O.written output.new) × (IsSound stop → ⊥)) }
    ensures count { O.faults output.old ≤ O.faults output.new }
{
    let line = damage_text(stop);
    if line.is_empty() {
        return Stop::Device(stop);
    }
    match output.put(line.as_slice()) {
        Ok(()) => Stop::Device(stop),
        Err(_) => Stop::Sink,
    }
}

/// What a run says last that met damage, and nothing for other stops. The longest such line has 32 bytes.
#[tactic(auto, unfolding(crate::specs::Puts::damage_line))]
fn damage_text(stop: DeviceStop) -> ArrayVec<u8, 40>
    ensures { result.items ≡ damage_line stop }
{
    let mut line = ArrayVec::new();
    match stop {
        DeviceStop::BadRoot => push_text(&mut line, b"bad root\n"),
        DeviceStop::BadRecord { addr } => {
            push_text(&mut line, b"bad record ");
            push_text(&mut line, itoa::Buffer::new().format(addr).as_bytes());
            push_text(&mut line, b"\n");
        }
        DeviceStop::Platform | DeviceStop::Tape | DeviceStop::Ledger | DeviceStop::Memory => {}
    }
    line
}
