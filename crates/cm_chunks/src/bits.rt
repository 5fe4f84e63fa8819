//! Runs of bits in one word.

ghost use Rattle.std.specs.Prelude.{◌≡◌, ◌-◌, ◌^◌, ◌<◌, ◌≤◌};
ghost use Rattle.cm_chunks.specs.Bits.{FindsClear};

/// The bits of a word from `low` up to `high` alone are set.
pub(crate) fn bits_between(low: u32, high: u32) -> u64
    requires nonzero { low < high }
    requires inside { high ≤ 64 }
    ensures { result ≡ 2 ^ high - 2 ^ low }
{
    (u64::MAX >> (64 - (high - low))) << low
}

/// The least bit of a word from which so many bits of it are clear.
pub(crate) fn clear_run_in(word: u64, bits: u32) -> Option<u32>
    requires nonzero { 1 ≤ bits }
    requires within_limit { bits ≤ 64 }
    ensures { FindsClear word bits result }
{
    // A bit of `runs` tells whether `known` bits from it on are clear.
    let mut runs = !word;
    let mut known = 1;
    while runs != 0 && known < bits {
        let more = known.min(bits - known);
        runs &= runs >> more;
        known += more;
    }
    if runs == 0 {
        return None;
    }
    Some(runs.trailing_zeros())
}
