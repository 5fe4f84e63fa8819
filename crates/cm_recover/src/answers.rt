//! Calls over a memory that can't die.

ghost use Rattle.std.specs.Prelude.{◌≡◌, IsOk, Ok};

use cm_words::Dead;

/// The answer of a call that didn't die.
pub(crate) fn alive<T>(answer: Result<T, Dead>) -> T
    requires { IsOk answer }
    ensures { answer ≡ Ok result }
{
    match answer {
        Ok(value) => value,
        Err(Dead) => unreachable!(),
    }
}
