ghost use Rattle.std.specs.Prelude.{◌≡◌, ◌+◌, ◌≤◌, ◌++◌, [], length, codes, None, Some};
ghost use Rattle.std.specs.Option.{option_map};
ghost use Rattle.std.specs.Fmt.{decimal};
ghost use Rattle.arrayvec.specs.ArrayString.{array_string_len};
ghost use Rattle.flit_statuses.specs.FaultLines.{limit_name, damage_number, damage_place, text_fault_line, image_fault_line, line_of};

use crate::status::{ImageFault, Status};
use arrayvec::ArrayString;
use flit_image::ImageError;
use flit_recover::Damage;
use flit_trace::Bound;
use itoa::Buffer;

/// The line of a fault, without its end. It takes no memory.
pub type FaultLine = ArrayString<64>;

fn limit_name(limit: Bound) -> &'static str
    ensures name { result.now ≡ limit_name limit }
    ensures short { length result.now ≤ 8 }
{
    match limit {
        Bound::Bytes => "bytes",
        Bound::Rows => "rows",
        Bound::Workers => "workers",
        Bound::Calls => "calls",
        Bound::Buckets => "buckets",
        Bound::Slots => "slots",
        Bound::Versions => "versions",
        Bound::Events => "events",
    }
}

fn damage_number(damage: Damage) -> u32
    ensures { result ≡ damage_number damage }
{
    match damage {
        Damage::TagSet { word: _ } => 1,
        Damage::RowOutOfRange { word: _ } => 2,
        Damage::KeyOrder { row: _ } => 3,
        Damage::KeyPlace { row: _ } => 4,
        Damage::Shared { row: _ } => 5,
        Damage::BadEdge { word: _ } => 6,
        Damage::NoMemory => 7,
    }
}

/// The word or the row of a damage.
fn damage_place(damage: Damage) -> u32
    ensures { result ≡ damage_place damage }
{
    match damage {
        Damage::TagSet { word } => word,
        Damage::RowOutOfRange { word } => word,
        Damage::KeyOrder { row } => row,
        Damage::KeyPlace { row } => row,
        Damage::Shared { row } => row,
        Damage::BadEdge { word } => word,
        Damage::NoMemory => 0,
    }
}

/// A line of these words.
fn of_words(words: &str) -> FaultLine
    requires { length words.now ≤ 64 }
    ensures { result.bytes ≡ words.now }
{
    let mut line = FaultLine::new();
    line.push_str(words);
    line
}

/// A line of these words, and a number behind them.
fn of_number(words: &str, number: u32) -> FaultLine
    requires { length words.now ≤ 40 }
    ensures bytes { result.bytes ≡ words.now ++ decimal number }
    ensures short { array_string_len result ≤ 50 }
{
    let mut line = of_words(words);
    line.push_str(Buffer::new().format(number));
    line
}

fn of_limit(limit: Bound, at: u32) -> FaultLine
    ensures { result.bytes
        ≡ codes "flit: limit " ++ limit_name limit ++ codes " at line " ++ decimal at }
{
    let mut line = of_words("flit: limit ");
    line.push_str(limit_name(limit));
    line.push_str(" at line ");
    line.push_str(Buffer::new().format(at));
    line
}

fn of_damage(number: u32, at: u32) -> FaultLine
    ensures { result.bytes
        ≡ codes "flit: bad image: damage " ++ decimal number ++ codes " at " ++ decimal at }
{
    let mut line = of_number("flit: bad image: damage ", number);
    line.push_str(" at ");
    line.push_str(Buffer::new().format(at));
    line
}

fn of_text_fault(error: ImageError) -> FaultLine
    ensures { result.bytes ≡ text_fault_line error }
{
    match error {
        ImageError::BadHeader => of_words("flit: bad image: text 1"),
        ImageError::BadLine { line } => of_number("flit: bad image: text 2 line ", line),
        ImageError::OutOfOrder { line } => of_number("flit: bad image: text 3 line ", line),
        ImageError::WordOutOfRange { line } => of_number("flit: bad image: text 4 line ", line),
        ImageError::Default { line } => of_number("flit: bad image: text 5 line ", line),
        ImageError::NoMemory => of_words("flit: no memory"),
    }
}

fn of_image_fault(fault: ImageFault) -> FaultLine
    ensures { result.bytes ≡ image_fault_line fault }
{
    match fault {
        ImageFault::Text(error) => of_text_fault(error),
        ImageFault::Damage(Damage::NoMemory) => of_words("flit: no memory"),
        ImageFault::Damage(damage) => of_damage(damage_number(damage), damage_place(damage)),
    }
}

/// The line that standard error has for a command that ended so. None comes for Done alone, which has no line.
pub fn fault_line(status: Status) -> Option<FaultLine>
    ensures { option_map (λ line. line.bytes) result ≡ line_of status }
{
    match status {
        Status::Done => None,
        Status::Usage => Some(of_words("flit: usage")),
        Status::BadTrace { line } => Some(of_number("flit: bad trace at line ", line)),
        Status::Limit { line, limit } => Some(of_limit(limit, line)),
        Status::BadImage(fault) => Some(of_image_fault(fault)),
        Status::ReadFault => Some(of_words("flit: read fault")),
        Status::WriteFault => Some(of_words("flit: write fault")),
        Status::NoMemory => Some(of_words("flit: no memory")),
    }
}
