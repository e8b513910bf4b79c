//! A loss of power over a platform in memory, with pages that it tears.
#![tactic(auto)]

ghost use Rattle.std.specs.Prelude.{◌≡◌, ◌∷◌, []};
ghost use Rattle.platform.specs.Mem.{mem_history, image_of_now, capacity_of, faults_of, failures_of, calls_of, IsSameRest};
ghost use Rattle.power_loss.specs.Loss.{Tore};

use platform::{MemPlatform, Platform};

/// The power is lost: the pages of the list that may be torn read as zero bytes from now on. Those that are synced, and those that
/// there are not, stay as they are. A new history begins with what is left, and with it the count of changes; of the platform no list and no
/// other count changes.
pub fn lose_power(platform: &mut MemPlatform, torn: &[u64])
    ensures left { Tore torn.now (image_of_now platform.old) (image_of_now platform.new) }
    ensures capacity { capacity_of platform.new ≡ capacity_of platform.old }
    ensures faults { faults_of platform.new ≡ faults_of platform.old }
    ensures past { (mem_history platform.new).past ≡ [] }
    ensures failures { failures_of platform.new ≡ failures_of platform.old }
    ensures calls { calls_of platform.new ≡ calls_of platform.old }
    ensures rest { IsSameRest platform.old platform.new }
{
    platform.power_cut(&[]);
    for addr in torn {
        tear_page(platform, *addr);
    }
}

/// A page reads as zero bytes from now on, if it is one that a loss of power may tear.
fn tear_page(platform: &mut MemPlatform, addr: u64)
    ensures left { Tore (addr ∷ []) (image_of_now platform.old) (image_of_now platform.new) }
    ensures capacity { capacity_of platform.new ≡ capacity_of platform.old }
    ensures faults { faults_of platform.new ≡ faults_of platform.old }
    ensures past { (mem_history platform.new).past ≡ [] }
    ensures failures { failures_of platform.new ≡ failures_of platform.old }
    ensures calls { calls_of platform.new ≡ calls_of platform.old }
    ensures rest { IsSameRest platform.old platform.new }
{
    if platform.synced() <= addr && addr < platform.head() {
        platform.power_cut(&[addr]);
    } else {
        platform.power_cut(&[]);
    }
}
