//! What is asked of a TPM.
ghost use Rattle.std.specs.Prelude.{◌≡◌, ◌≤◌, ℕ, List, Option, Some, None, length, take, IfOk, MatchResult};

use std::io;
use tpm_nv::REPLY;

/// A TPM: one command is sent, and one reply is got.
///
/// Nothing is asked of the replies.
pub trait TpmCalls {
    /// This command was sent, and this came of it: a reply, or none.
    ghost asks: { Self → List ℕ → Option (List ℕ) → Self → Type 0 };

    /// Sends a command. The answer is how many bytes of the buffer of `REPLY` bytes the reply takes, from the first one on.
    fn send(&mut self, command: &[u8], reply: &mut [u8]) -> io::Result<usize>
        requires { length reply.old ≡ REPLY }
        ensures within { IfOk result (λ n. n ≤ REPLY) }
        ensures asked { MatchResult result
            (λ n. asks self.old command.now (Some (take n reply.new)) self.new)
            (λ _. asks self.old command.now None self.new) };
}
