//! Scripts that are drawn at random.

ghost use Rattle.std.specs.Prelude.{◌<◌};

use std::alloc::Global;
use std::test::Fail;

/// Numbers after a start, by xorshift with the shifts 13, 7 and 17 (Marsaglia, Xorshift RNGs, 2003).
#[derive(Drop)]
pub struct Draws {
    pub state: u64,
}

impl Draws {
    /// The next number, below the limit where that isn't 0.
    pub fn below(&mut self, limit: u64) -> u64
        ensures { 0 < limit → result < limit }
    {
        self.state ^= self.state << 13;
        self.state ^= self.state >> 7;
        self.state ^= self.state << 17;
        self.state.checked_rem(limit).unwrap_or(0)
    }
}

/// What scripts are drawn from: so many callers, records, keys and segments. One of so many values may be a long one.
#[derive(Clone, Copy)]
pub struct Mix {
    pub callers: u64,
    pub records: u64,
    pub keys: u64,
    pub segments: u64,
    pub longs: u64,
}

const LETTERS: &[u8] = b"abcdefghijklmnopqrstuvwxyz";

/// Adds the digits of a number.
fn push_number(text: &mut Vec<u8>, number: u64) -> Result<(), Fail> {
    if number > 9 {
        text.push(b'0'.wrapping_add((number / 10 % 10) as u8))?;
    }
    Ok(text.push(b'0'.wrapping_add((number % 10) as u8))?)
}

/// Adds a comma and a key: one of so many, of two to four bytes.
fn push_key(text: &mut Vec<u8>, draws: &mut Draws, mix: Mix) -> Result<(), Fail> {
    let key = draws.below(mix.keys);
    text.push(b',')?;
    for _ in 0..key % 3 + 1 {
        text.push(LETTERS[(key % 26) as usize])?;
    }
    Ok(text.push(LETTERS[(key / 78 % 26) as usize])?)
}

/// Adds a comma and a value of up to 119 bytes.
fn push_value(text: &mut Vec<u8>, draws: &mut Draws, mix: Mix) -> Result<(), Fail> {
    let len = match draws.below(mix.longs) {
        0 => draws.below(120),
        _ => draws.below(9),
    };
    let letter = LETTERS[draws.below(26) as usize];
    text.push(b',')?;
    for _ in 0..len {
        text.push(letter)?;
    }
    Ok(())
}

/// Adds a comma and one of the few values that an expectation may meet.
fn push_short(text: &mut Vec<u8>, draws: &mut Draws) -> Result<(), Fail> {
    text.push(b',')?;
    if draws.below(2) == 0 {
        text.push(LETTERS[draws.below(26) as usize])?;
    }
    Ok(())
}

/// Adds the operation of a record and its fields.
fn push_op(text: &mut Vec<u8>, draws: &mut Draws, mix: Mix, lists: bool) -> Result<(), Fail> {
    let verb = draws.below(if lists { 11 } else { 10 });
    let words: [&[u8]; 11] = [
        b",put",
        b",put",
        b",get",
        b",put-if-absent",
        b",replace",
        b",replace-if",
        b",remove",
        b",remove-if",
        b",count",
        b",sweep",
        b",list",
    ];
    text.extend_from_slice(words[verb as usize])?;
    if verb > 7 {
        text.push(b',')?;
        push_number(text, draws.below(mix.segments))?;
        if verb == 9 {
            text.push(b',')?;
            text.push(LETTERS[draws.below(26) as usize])?;
        }
        return Ok(());
    }
    push_key(text, draws, mix)?;
    match verb {
        0 | 1 | 3 | 4 => push_value(text, draws, mix),
        5 => {
            push_short(text, draws)?;
            push_value(text, draws, mix)
        }
        7 => push_short(text, draws),
        _ => Ok(()),
    }
}

/// A script: the last few of its records may be lists.
pub fn script_of(alloc: Global, draws: &mut Draws, mix: Mix) -> Result<Vec<u8>, Fail> {
    let mut text = Vec::new(alloc);
    for record in 0..mix.records {
        push_number(&mut text, draws.below(mix.callers))?;
        push_op(
            &mut text,
            draws,
            mix,
            record.saturating_add(15) > mix.records,
        )?;
        text.push(b'\n')?;
    }
    Ok(text)
}
