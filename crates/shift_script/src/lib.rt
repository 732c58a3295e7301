// The script of a cell that is talked to line by line: what a line says.
#![tactic(auto)]

ghost use Rattle.std.specs.Prelude.{◌≡◌, min, drop};
ghost use Rattle.line_words.specs.Forms.{words_of};
ghost use Rattle.shift_script.specs.Script.{said, named, small_at, code_at, channel_at, unit_at, submission_of};
ghost use Rattle.shift_script.specs.Script.{is_echo, is_key, message_in, say_by, table, line_says};

use line_words::Base;
use numbers::{ChannelNumber, UnitNumber};
use packets::{Act, How, Spot};
use units::Mark;

// What a line says: no call, an echo, or one of the calls. Do: a call on packets, jobs, units and marks; a submission has
// its two numbers as an address and H, whatever the channel's kind, which no line says. The ID of a release or a deletion
// is beside it. Key: a keyboard message, which is in the line.
#[derive(Clone, Copy)]
pub enum Line {
    NoCall,
    Echo,
    Deck,
    Select,
    Board,
    Do(Act),
    Release,
    Delete,
    Status(u8, u8),
    Key,
}

// A line's meaning with the ID that it names, blanks where it names none.
#[derive(Clone, Copy)]
pub struct Said {
    pub line: Line,
    pub id: [u8; 6],
}

// A meaning that names no ID.
fn plain(line: Line) -> Said
    ensures { result ≡ said line }
{
    Said {
        line,
        id: [b' '; 6],
    }
}

// A meaning that names the ID of a line's second word.
fn naming(line: &[u8], call: Line) -> Said
    ensures { result ≡ named call (words_of line.now) }
{
    Said {
        line: call,
        id: line_words::id_at(line, 1),
    }
}

// A number as a place, packet, function, channel, unit or failure code: 255 for a larger one, which is out of range
// as each of these, so that the call is refused with the same number.
fn small(n: u32) -> u8
    ensures { result ≡ min n 255 }
{
    n.min(255) as u8
}

// The place, packet, channel or unit number that word k writes.
fn small_at(line: &[u8], k: usize) -> u8
    ensures { result ≡ small_at k (words_of line.now) }
{
    small(line_words::number_at(Base::Decimal, line, k))
}

// The function or failure code that word k writes.
fn code_at(line: &[u8], k: usize) -> u8
    ensures { result ≡ code_at k (words_of line.now) }
{
    small(line_words::number_at(Base::Octal, line, k))
}

// The channel of a line that names it first.
fn channel_at(line: &[u8]) -> ChannelNumber
    ensures { result ≡ channel_at 1 (words_of line.now) }
{
    ChannelNumber(small_at(line, 1))
}

// The unit of a line that names it after its channel.
fn unit_at(line: &[u8]) -> UnitNumber
    ensures { result ≡ unit_at 2 (words_of line.now) }
{
    UnitNumber(small_at(line, 2))
}

// The submission of a line `SUBMIT p k ff cc x`, with H.
fn submitted(line: &[u8], to: u32) -> Act
    ensures { result ≡ submission_of to (words_of line.now) }
{
    let place = small_at(line, 1);
    let packet = small_at(line, 2);
    let function = code_at(line, 3);
    let channel = ChannelNumber(small_at(line, 4));
    let at = line_words::number_at(Base::Decimal, line, 5);
    Act::Submit(place, packet, function, channel, Spot::OnDrum(at, to))
}

// The rows of the table from `RELEASE` on.
fn on_requests(line: &[u8]) -> Said
    ensures { result ≡ say_by (drop 14 table) (words_of line.now) }
{
    if line_words::fits(line, b"RELEASE id") {
        return naming(line, Line::Release);
    }
    if line_words::fits(line, b"DELETE id") {
        return naming(line, Line::Delete);
    }
    if line_words::fits(line, b"STATUS p k") {
        return plain(Line::Status(small_at(line, 1), small_at(line, 2)));
    }
    if line_words::fits(line, b"BOARD") {
        return plain(Line::Board);
    }
    if line_words::fits(line, b"RETURN p cc uu") {
        let channel = ChannelNumber(small_at(line, 2));
        let unit = UnitNumber(small_at(line, 3));
        return plain(Line::Do(Act::Return(small_at(line, 1), channel, unit)));
    }
    plain(Line::NoCall)
}

// The rows from `END` on.
fn on_units(line: &[u8]) -> Said
    ensures { result ≡ say_by (drop 8 table) (words_of line.now) }
{
    if line_words::fits(line, b"END p") {
        return plain(Line::Do(Act::End(small_at(line, 1), false)));
    }
    if line_words::fits(line, b"ABORT p") {
        return plain(Line::Do(Act::End(small_at(line, 1), true)));
    }
    if line_words::fits(line, b"DOWN cc uu") {
        return plain(Line::Do(Act::Mark(channel_at(line), unit_at(line), Mark::Down, true)));
    }
    if line_words::fits(line, b"UP cc uu") {
        return plain(Line::Do(Act::Mark(channel_at(line), unit_at(line), Mark::Down, false)));
    }
    if line_words::fits(line, b"RESERVE cc uu") {
        return plain(Line::Do(Act::Mark(channel_at(line), unit_at(line), Mark::Reserved, true)));
    }
    if line_words::fits(line, b"UNRESERVE cc uu") {
        return plain(Line::Do(Act::Mark(channel_at(line), unit_at(line), Mark::Reserved, false)));
    }
    on_requests(line)
}

// All rows, `DECK` first.
fn on_packets(line: &[u8]) -> Said
    ensures { result ≡ say_by table (words_of line.now) }
{
    if line_words::fits(line, b"DECK") {
        return plain(Line::Deck);
    }
    if line_words::fits(line, b"SELECT") {
        return plain(Line::Select);
    }
    if line_words::fits(line, b"SUBMIT p k ff cc x") {
        return plain(Line::Do(submitted(line, 0)));
    }
    if line_words::fits(line, b"SUBMIT p k ff cc x h") {
        let to = line_words::number_at(Base::Decimal, line, 6);
        return plain(Line::Do(submitted(line, to)));
    }
    if line_words::fits(line, b"START cc") {
        return plain(Line::Do(Act::Start(channel_at(line))));
    }
    if line_words::fits(line, b"DONE cc") {
        return plain(Line::Do(Act::Complete(channel_at(line), How::Full)));
    }
    if line_words::fits(line, b"CUT cc") {
        return plain(Line::Do(Act::Complete(channel_at(line), How::Cut)));
    }
    if line_words::fits(line, b"FAIL cc ff") {
        return plain(Line::Do(Act::Complete(channel_at(line), How::Failed(code_at(line, 2)))));
    }
    on_units(line)
}

// Whether a line is echoed: it is empty, or starts with `#`.
fn is_echo(line: &[u8]) -> bool
    ensures { result ≡ is_echo line.now }
{
    line.is_empty() || line[0] == b'#'
}

// Whether a line is a keyboard message: `KEY`, one space, and the message; or `KEY` alone.
fn is_key(line: &[u8]) -> bool
    ensures { result ≡ is_key line.now }
{
    line == b"KEY".as_slice() || line.starts_with(b"KEY ")
}

// The message of a line that is one; empty for `KEY` alone.
pub fn message_in(line: &[u8]) -> &[u8]
    ensures { result.now ≡ message_in line.now }
{
    &line[line.len().min(4)..]
}

// What a line says, its LF apart.
pub fn read_line(line: &[u8]) -> Said
    ensures { result ≡ line_says line.now }
{
    if 255 < line.len() {
        return plain(Line::NoCall);
    }
    if is_echo(line) {
        return plain(Line::Echo);
    }
    if is_key(line) {
        return plain(Line::Key);
    }
    on_packets(line)
}
