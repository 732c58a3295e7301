// The lines of a configuration, each at the start of a text.
ghost use Rattle.std.specs.Prelude.{◌≡◌};
ghost use Rattle.configuration.specs.Lines.{least, most, last_number, up_to_15, is_code, ChannelRead, DownRead, CodeRead};

use channels::Fitted;
use numbers::{ChannelNumber, Kind, UnitNumber, limits};

// A line `cc KK n`: what it says, and how many bytes it takes.
#[derive(Clone, Copy)]
pub struct ChannelLine {
    pub channel: ChannelNumber,
    pub has: Fitted,
    pub length: usize,
}

// A line `cc uu`.
#[derive(Clone, Copy)]
pub struct DownLine {
    pub channel: ChannelNumber,
    pub unit: UnitNumber,
}

// The lowest n of a kind.
fn least_of(kind: Kind) -> u32
    ensures { result ≡ least kind }
{
    if numbers::is_drum(kind) {
        limits::LEAST_WORDS
    } else {
        1
    }
}

// The highest n of a kind.
fn most_of(kind: Kind) -> u32
    ensures { result ≡ most kind }
{
    if numbers::is_drum(kind) {
        limits::MOST_WORDS
    } else {
        16
    }
}

// A number from `low` to `high` that ends its line, and how many bytes the line takes.
#[tactic(auto, unfolding(crate::specs::Lines::last_number))]
pub fn last_number(s: &[u8], low: u32, high: u32) -> Option<(u32, usize)>
    ensures { result ≡ last_number low high s.now }
{
    let (n, k) = text::decimal(s)?;
    if low <= n && n <= high && text::byte_at(s, k) == b'\n' {
        Some((n, k + 1))
    } else {
        None
    }
}

// Two digits, 00 to 15, with this byte behind them. The byte is tested first: where it stands, so do those before it,
// and no further test asks whether they do.
#[tactic(auto, unfolding(crate::specs::Lines::up_to_15))]
fn up_to_15(s: &[u8], end: u8) -> Option<u8>
    ensures { result ≡ up_to_15 end s.now }
{
    if text::byte_at(s, 2) != end {
        return None;
    }
    let (n, _) = text::two_digits(s)?;
    if n <= 15 { Some(n as u8) } else { None }
}

// A line `cc KK n`.
#[tactic(auto, unfolding(crate::specs::Lines::channel_line))]
pub fn channel_line(s: &[u8]) -> Option<ChannelLine>
    ensures { ChannelRead s.now result }
{
    let channel = ChannelNumber(up_to_15(s, b' ')?);
    let kind = numbers::kind_of(text::byte_at(s, 3), text::byte_at(s, 4))?;
    if text::byte_at(s, 5) != b' ' {
        return None;
    }
    let (n, k) = last_number(&s[6..], least_of(kind), most_of(kind))?;
    let has = Fitted { kind, n };
    Some(ChannelLine {
        channel,
        has,
        length: 6 + k,
    })
}

// A line `cc uu`, of six bytes with its LF.
#[tactic(auto, unfolding(crate::specs::Lines::down_line))]
pub fn down_line(s: &[u8]) -> Option<DownLine>
    ensures { DownRead s.now result }
{
    let channel = ChannelNumber(up_to_15(s, b' ')?);
    let unit = UnitNumber(up_to_15(&s[3..], b'\n')?);
    Some(DownLine { channel, unit })
}

// Whether a code may be listed: 02 to 77 octal, neither 16 nor 17.
fn is_code(code: u32) -> bool
    ensures { result ≡ is_code code }
{
    0o02 <= code && code <= 0o77 && code != 0o16 && code != 0o17
}

// A line of two octal digits, three bytes with its LF: two digits, each at most 7.
#[tactic(auto, unfolding(crate::specs::Lines::code_line))]
pub fn code_line(s: &[u8]) -> Option<u8>
    ensures { CodeRead s.now result }
{
    let (n, _) = text::two_digits(s)?;
    let eights = n / 10;
    let ones = n % 10;
    let code = eights * 8 + ones;
    if eights <= 7 && ones <= 7 && is_code(code) && text::byte_at(s, 2) == b'\n' {
        Some(code as u8)
    } else {
        None
    }
}
