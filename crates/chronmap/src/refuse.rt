//! The lines of refusals, given to a sink.

ghost use Rattle.std.specs.Prelude.{◌≡◌, ◌≤◌, ◌++◌, codes, length};
ghost use Rattle.chronmap.specs.Statuses.{broken_text, cause_word, image_word, law_word, limit_word, refusal_text, status_of};
ghost use Rattle.chronmap.specs.Streams.{AppendsUnlessFault};

use crate::sink::{Sink, write_text};
use crate::status::Status;
use crate::stop::Stop;
use arrayvec::ArrayString;
use cm_check::{Broken, Law};
use cm_geo::GeoRefused;
use cm_image::ImageRefused;
use cm_script::LineCause;
use itoa::Buffer;

// The most bytes of a line: "refused,image,segment-count,", two numbers of ten digits, a comma and a line feed.
const LONGEST_LINE: usize = 50;

// What stands behind the line's number in the refusal of a script.
fn cause_end(cause: LineCause) -> &'static str
    ensures text { result.now ≡ codes "," ++ cause_word cause ++ codes "\n" }
    ensures length_limit { length result.now ≤ 11 }
{
    match cause {
        LineCause::Csv => ",csv\n",
        LineCause::Caller => ",caller\n",
        LineCause::Op => ",op\n",
        LineCause::Argument => ",argument\n",
        LineCause::TooLarge => ",too-large\n",
    }
}

// What stands behind "refused,geometry,".
fn limit_end(refused: GeoRefused) -> &'static str
    ensures text { result.now ≡ limit_word refused ++ codes "\n" }
    ensures length_limit { length result.now ≤ 15 }
{
    match refused {
        GeoRefused::Segments => "segments\n",
        GeoRefused::Tiers => "tiers\n",
        GeoRefused::Chunks => "chunks\n",
        GeoRefused::ChunkWords => "chunk-words\n",
        GeoRefused::Allowance => "allowance\n",
        GeoRefused::TooManyWords => "too-many-words\n",
    }
}

// What stands behind "refused,image," where bytes are no image.
fn image_end(why: ImageRefused) -> &'static str
    ensures text { result.now ≡ image_word why ++ codes "\n" }
    ensures length_limit { length result.now ≤ 9 }
{
    match why {
        ImageRefused::Short => "short\n",
        ImageRefused::Long => "long\n",
        ImageRefused::Magic => "magic\n",
        ImageRefused::Version => "version\n",
        ImageRefused::Geometry => "geometry\n",
    }
}

// The word of a law, with a comma behind it.
fn law_begin(law: Law) -> &'static str
    ensures text { result.now ≡ law_word law ++ codes "," }
    ensures length_limit { length result.now ≤ 14 }
{
    match law {
        Law::Lock => "lock,",
        Law::Number => "number,",
        Law::Header => "header,",
        Law::Chain => "chain,",
        Law::Reserved => "reserved,",
        Law::Slot => "slot,",
        Law::Gap => "gap,",
        Law::Duplicate => "duplicate,",
        Law::Overlap => "overlap,",
        Law::Bits => "bits,",
        Law::TierCount => "tier-count,",
        Law::SegmentCount => "segment-count,",
        Law::Unlinked => "unlinked,",
        Law::Allowance => "allowance,",
    }
}

// Adds the law, the segment and the word that is broken.
fn push_broken(text: &mut ArrayString<LONGEST_LINE>, broken: Broken)
    requires { length text.old.bytes ≤ 14 }
    ensures { text.new.bytes ≡ text.old.bytes ++ broken_text broken ++ codes "\n" }
{
    let mut digits = Buffer::new();
    text.push_str(law_begin(broken.law));
    text.push_str(digits.format(broken.segment));
    text.push_str(",");
    text.push_str(digits.format(broken.word));
    text.push_str("\n");
}

// The line of a refusal. It takes no memory, so that want of memory can be told too.
fn refusal_line(stop: Stop) -> ArrayString<LONGEST_LINE>
    ensures { result.bytes ≡ refusal_text stop }
{
    let mut text = ArrayString::new();
    match stop {
        Stop::NoMemory => text.push_str("refused,memory\n"),
        Stop::Usage => text.push_str("refused,usage\n"),
        Stop::Geometry(refused) => {
            text.push_str("refused,geometry,");
            text.push_str(limit_end(refused));
        }
        Stop::Missing => text.push_str("refused,image,missing\n"),
        Stop::NotImage(why) => {
            text.push_str("refused,image,");
            text.push_str(image_end(why));
        }
        Stop::Broken(broken) => {
            text.push_str("refused,image,");
            push_broken(&mut text, broken);
        }
        Stop::TooLong => text.push_str("refused,script,0,too-long\n"),
        Stop::Refused { line, cause } => {
            let mut digits = Buffer::new();
            text.push_str("refused,script,");
            text.push_str(digits.format(line));
            text.push_str(cause_end(cause));
        }
        Stop::ReadFault => text.push_str("refused,read\n"),
        Stop::VaultFault => text.push_str("refused,vault\n"),
    }
    text
}

/// Gives the line of a refusal, as one piece where the sink takes it, and answers the status. A fault of
/// the sink there doesn't change it. Takes no memory.
pub fn refuse<W: Sink>(sink: &mut W, stop: Stop) -> Status
    ensures status { result ≡ status_of stop }
    ensures faults { (W.seen sink.old).faults ≤ (W.seen sink.new).faults }
    ensures text { AppendsUnlessFault (W.seen sink.old) (W.seen sink.new) (refusal_text stop) }
{
    let line = refusal_line(stop);
    let _ = write_text(sink, line.as_str().as_bytes());
    Status::from(stop)
}
