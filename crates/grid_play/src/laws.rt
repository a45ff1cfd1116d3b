//! A law of scripts as a public call: it makes the calls that its name says, and ensures what they return.
ghost use Rattle.std.specs.Prelude.{◌≡◌, string_bytes, IfOk};
ghost use Rattle.grid_play.specs.Prelude.{IsOrMemory, script_output};

use crate::{ScriptFault, play};
use std::alloc::Allocator;

/// Plays an input at once and deferred, and returns both results. Where both are outputs, they are the same.
///
///     "RowMajor 2 1 2\nflip_cols"   Ok("ok\n[[2, 1]]\n") twice
///
/// Fails: each result is the fault that `play` returns.
/// Cost: that of both runs.
pub fn plays_alike<A: Allocator + Clone>(
    allocs: (A, A),
    input: &[u8],
) -> (
    Result<String<A>, ScriptFault>,
    Result<String<A>, ScriptFault>,
)
    ensures at_once { IsOrMemory string_bytes (script_output input.now) result.0 }
    ensures deferred { IsOrMemory string_bytes (script_output input.now) result.1 }
    ensures law { IfOk result.0 (λ output.
        IfOk result.1 (λ other. string_bytes output ≡ string_bytes other)) }
{
    let at_once = play(allocs.0, input, false);
    let deferred = play(allocs.1, input, true);
    (at_once, deferred)
}
