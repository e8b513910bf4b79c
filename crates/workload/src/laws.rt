//! Laws of the script. The functions do nothing: each has its law as its contract.
ghost use Rattle.std.specs.Prelude.{◌≡◌, ℕ, length};
ghost use Rattle.std.specs.List.{AllByRecursion};
ghost use Rattle.workload.specs.Scripts.{generated_commands, IsOrdinary};

/// Generated commands are as many as were asked for, and each reads, writes or trims a block of the device, or commits: so a
/// device that is mounted serves them all.
pub fn generated_commands_are_ordinary()
    ensures count { (seed count : ℕ) → length (generated_commands seed count) ≡ count }
    ensures ordinary { (seed count : ℕ) → AllByRecursion IsOrdinary (generated_commands seed count) }
{}
