//! The words behind the program's name.

ghost use Rattle.std.specs.Prelude.{◌≡◌, IfOk, drop, map, string_bytes};

use cm_command::Word;
use cm_plain::NoMemory;
use std::alloc::Global;

/// The words behind the program's name, which stands first. Takes memory.
pub fn words_of(alloc: Global, args: &[String]) -> Result<Vec<Word>, NoMemory>
    ensures { IfOk result (λ words. words.items ≡ map string_bytes (drop 1 args.now)) }
{
    let mut words = Vec::new(alloc);
    let others = &args[args.len().min(1)..];
    for arg in others {
        words.push(Word::of(alloc, arg.as_str())?)?;
    }
    Ok(words)
}
