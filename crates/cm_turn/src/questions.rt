//! The operations that never change a segment.

ghost use Rattle.cm_plain.specs.declared.op.Op.TheVariants as op;

use crate::answer::Answer;
use crate::conditions::find_value;
use crate::operation::Question;
use cm_geo::Geo;
use cm_plain::Ask;
use cm_words::{Dead, Mem};

/// A key's value, which comes to `out`.
#[derive(Clone, Copy)]
pub(crate) struct Get<'a> {
    pub(crate) key: &'a [u8],
}

impl Question for Get<'_> {
    ghost op = { λ self. op.Get self.key.now };

    ghost room = { λ self. 4096 };

    fn ask(&self) -> Ask<'_> {
        Ask::Get { key: self.key }
    }

    fn answer<M: Mem>(&self, mem: &mut M, geo: &Geo, out: &mut [u8]) -> Result<Answer, Dead> {
        match find_value(mem, geo, self.key, out)? {
            Some(len) => Ok(Answer::Value(len)),
            None => Ok(Answer::Missing),
        }
    }
}

/// The number of a segment's entries.
#[derive(Clone, Copy)]
pub struct Count {
    pub segment: u32,
}

/// The address of the number of entries.
const COUNT: u32 = 2;

impl Question for Count {
    ghost op = { λ self. op.Count self.segment };

    ghost room = { λ self. 0 };

    fn ask(&self) -> Ask<'_> {
        Ask::Count {
            segment: self.segment,
        }
    }

    fn answer<M: Mem>(&self, mem: &mut M, geo: &Geo, _out: &mut [u8]) -> Result<Answer, Dead> {
        let entries = mem.load(COUNT)?;
        // A state has fewer entries than 32 bits can count.
        Ok(Answer::Count(u32::try_from(entries).unwrap_or(u32::MAX)))
    }
}
