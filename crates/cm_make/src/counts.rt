//! How many answers of each kind there are.

ghost use Rattle.std.specs.Prelude.{◌≡◌, ◌+◌, ◌-◌, ◌<◌, ◌^◌, if◌then◌else◌};
ghost use Rattle.cm_make.specs.Made.{answers, is_kept, is_missing, is_new, is_removed, is_replaced, is_value};

use cm_plain::{Receipt, Reply};

/// How many answers there are of each kind that is counted.
#[derive(Clone, Copy)]
pub(crate) struct Counts {
    pub(crate) new: u64,
    pub(crate) replaced: u64,
    pub(crate) kept: u64,
    pub(crate) missing: u64,
    pub(crate) removed: u64,
    pub(crate) value: u64,
}

// One answer more.
fn with_reply(counts: Counts, reply: &Reply) -> Counts
    requires new { counts.new < 2 ^ 64 - 1 }
    requires replaced { counts.replaced < 2 ^ 64 - 1 }
    requires kept { counts.kept < 2 ^ 64 - 1 }
    requires missing { counts.missing < 2 ^ 64 - 1 }
    requires removed { counts.removed < 2 ^ 64 - 1 }
    requires value { counts.value < 2 ^ 64 - 1 }
    ensures new { result.new ≡ counts.new + (if is_new reply.now then 1 else 0) }
    ensures replaced { result.replaced ≡ counts.replaced + (if is_replaced reply.now then 1 else 0) }
    ensures kept { result.kept ≡ counts.kept + (if is_kept reply.now then 1 else 0) }
    ensures missing { result.missing ≡ counts.missing + (if is_missing reply.now then 1 else 0) }
    ensures removed { result.removed ≡ counts.removed + (if is_removed reply.now then 1 else 0) }
    ensures value { result.value ≡ counts.value + (if is_value reply.now then 1 else 0) }
{
    let mut counts = counts;
    match reply {
        Reply::New => counts.new += 1,
        Reply::Replaced => counts.replaced += 1,
        Reply::Kept(_) => counts.kept += 1,
        Reply::Missing => counts.missing += 1,
        Reply::Removed => counts.removed += 1,
        Reply::Value(_) => counts.value += 1,
        _ => {}
    }
    counts
}

/// Counts the answers of each kind, in one pass.
pub(crate) fn counts_of(receipts: &[Receipt]) -> Counts
    ensures new { result.new ≡ answers is_new receipts.now }
    ensures replaced { result.replaced ≡ answers is_replaced receipts.now }
    ensures kept { result.kept ≡ answers is_kept receipts.now }
    ensures missing { result.missing ≡ answers is_missing receipts.now }
    ensures removed { result.removed ≡ answers is_removed receipts.now }
    ensures value { result.value ≡ answers is_value receipts.now }
{
    let mut counts = Counts {
        new: 0,
        replaced: 0,
        kept: 0,
        missing: 0,
        removed: 0,
        value: 0,
    };
    for receipt in receipts {
        counts = with_reply(counts, &receipt.reply);
    }
    counts
}
