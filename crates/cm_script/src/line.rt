//! A script as a list of lines.

use crate::limits::MAX_SCRIPT_LINES;
use cm_plain::Op;
use std::marker::Model;

/// A record of a script: who asks, and for what.
#[derive(Drop, Debug)]
pub struct Line {
    pub caller: u32,
    pub op: Op,
}

/// The records of a script in order, at most `MAX_SCRIPT_LINES`. Contracts see the list of them;
/// records are numbered from 1.
#[derive(Drop, Debug)]
pub struct Script {
    lines: Vec<Line>,
}

impl Model for Script {
    ghost use Rattle.std.specs.Prelude.{List, length, ◌≤◌};
    ghost use Rattle.cm_script.specs.declared.limits.TheConstants.{MAX_SCRIPT_LINES};
    ghost use Rattle.cm_script.specs.declared.line.Line.{Line};

    ghost Value = { List Line };

    ghost view = { λ s. s.lines.items };

    ghost invariant = { λ s. length s.lines.items ≤ MAX_SCRIPT_LINES };
}

impl Script {
    ghost use Rattle.std.specs.Prelude.{◌≡◌, ◌==◌, ◌<◌, ◌≤◌, length, slice_get, Some, vec_len};

    /// The script of these lines, of which there are at most `MAX_SCRIPT_LINES`. Takes no memory.
    pub fn from_vec(lines: Vec<Line>) -> Script
        requires { vec_len lines ≤ MAX_SCRIPT_LINES }
        ensures { result ≡ lines.items }
    {
        Script { lines }
    }

    /// How many records there are.
    pub fn len(&self) -> u32
        ensures value { result ≡ length self.now }
        ensures within_limit { result ≤ MAX_SCRIPT_LINES }
    {
        self.lines.len() as u32
    }

    /// Whether there is no record.
    pub fn is_empty(&self) -> bool
        ensures { result ≡ (length self.now == 0) }
    {
        self.lines.is_empty()
    }

    /// The record at an index, counted from 0.
    pub fn line(&self, at: u32) -> &Line
        requires { at < length self.now }
        ensures { slice_get self.now at ≡ Some result.now }
    {
        &self.lines[at as usize]
    }
}
