//! What the values that clap found mean.

ghost use Rattle.std.specs.Prelude.{◌≡◌, IfOk, List, ℕ, Option, map, unwrap_or, [], All};
ghost use Rattle.std.specs.Option.{option_map};
ghost use Rattle.cm_command.specs.Grammar.{OriginIs};
ghost use Rattle.cm_command.specs.Kills.{AreKills, kill_text};
ghost use Rattle.cm_command.specs.Texts.{AreAllKills};

use crate::command::Origin;
use crate::kill::{Kill, kill_of};
use crate::numbers::{Numbers, numbers_of};
use crate::word::Word;
use cm_plain::{ListOf, NoMemory};
use std::alloc::Global;

/// Where the first words of a run come from, by the values of `--geo` and `--image`. Takes memory.
pub fn origin_of(alloc: Global, geo: Option<&str>, image: Option<&str>) -> Result<Origin, NoMemory>
    requires { (from : Origin) × OriginIs (option_map (λ text. text.now) geo) (option_map (λ text. text.now) image) from }
    ensures { IfOk result (OriginIs (option_map (λ text. text.now) geo.entry) (option_map (λ text. text.now) image.entry)) }
{
    match (geo, image) {
        (Some(text), _) => Ok(Origin::Numbers(numbers_of(text).unwrap())),
        (None, Some(name)) => Ok(Origin::Image(Word::of(alloc, name)?)),
        (None, None) => Ok(Origin::Numbers(Numbers::default())),
    }
}

/// The name that a value is, if there is one. Takes memory.
pub fn name_of(alloc: Global, value: Option<&str>) -> Result<Option<Word>, NoMemory>
    ensures { IfOk result (λ name. name ≡ option_map (λ text. text.now) value.entry) }
{
    match value {
        Some(text) => Ok(Some(Word::of(alloc, text)?)),
        None => Ok(None),
    }
}

/// The kills whose texts these are. Takes memory.
pub fn kills_of(alloc: Global, texts: &[&str]) -> Result<ListOf<Kill>, NoMemory>
    requires { AreAllKills (map (λ text. text.now) texts.now) }
    ensures of_texts { IfOk result (λ kills. map (λ text. text.now) texts.entry.now ≡ map kill_text kills) }
    ensures are_kills { IfOk result AreKills }
{
    let mut kills = Vec::with_capacity(alloc, texts.len())?;
    for text in texts {
        kills.push(kill_of(text).unwrap())?;
    }
    Ok(ListOf::from_vec(kills))
}
