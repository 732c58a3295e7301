// The three sections of a configuration, each read line by line after its count.
// Stays: three readers share five lines; one over a trait of lines needs a state, a definition and two laws for each, and is longer.
ghost use Rattle.std.specs.Prelude.{◌≡◌, ◌≤◌, ◌<◌, length, drop};
ghost use Rattle.configuration.specs.Sections.{channel_allowed, down_allowed};
ghost use Rattle.configuration.specs.Sections.{ChannelsRead, DownsRead, codes_from};
ghost use Rattle.channels.specs.Channels.{no_codes};

use crate::{BadLine, line};
use channels::Channel;
use numbers::{ChannelNumber, Kind, UnitNumber};

// What the lines of a section say, and where it ends: the next line's number and index.
#[derive(Clone, Copy)]
pub struct Section<T> {
    pub of: T,
    pub line: usize,
    pub at: usize,
}

// Whether a channel may come where the lowest number is `next` and a drum stood before or not.
#[tactic(auto, unfolding(crate::specs::Sections::channel_allowed))]
fn channel_allowed(next: u8, drum: bool, channel: ChannelNumber, kind: Kind) -> bool
    ensures { result ≡ channel_allowed next drum channel kind }
{
    next <= channel.0 && !(drum && numbers::is_drum(kind))
}

// Whether a down unit may come where the lowest index is `next`, on the channel that has its number.
#[tactic(auto, unfolding(crate::specs::Sections::down_allowed))]
fn down_allowed(next: usize, on: Channel, channel: ChannelNumber, unit: UnitNumber) -> bool
    ensures { result ≡ down_allowed next on channel unit }
{
    next <= channel.0 as usize * 16 + (unit.0 as usize) && (unit.0 as u32) < channels::units_of(on)
}

// The channel lines, from `start` on, where line 2 begins.
pub fn read_channels(s: &[u8], count: u32, start: usize) -> Result<Section<[Channel; 16]>, BadLine>
    requires { start ≤ length s.now }
    ensures { ChannelsRead s.now count start result }
{
    let mut of = channels::no_channels();
    let mut at = start;
    let mut next: u8 = 0;
    let mut drum = false;
    let end = 2 + count as usize;
    for line in 2..end {
        let read = line::channel_line(&s[at..]).ok_or(BadLine(line))?;
        let kind = read.has.kind;
        if !channel_allowed(next, drum, read.channel, kind) {
            return Err(BadLine(line));
        }
        of[read.channel.0 as usize] = Channel {
            has: Some(read.has),
        };
        drum |= numbers::is_drum(kind);
        next = read.channel.0 + 1;
        at += read.length;
    }
    Ok(Section { of, line: end, at })
}

// The down lines, from `start` on, where line `first` begins: whether unit u of channel c is down, at c * 16 + u.
pub fn read_downs(
    s: &[u8],
    count: u32,
    first: usize,
    start: usize,
    channels: [Channel; 16],
) -> Result<Section<[bool; 256]>, BadLine>
    requires { (start ≤ length s.now) × (first < 8589934592) }
    ensures { DownsRead s.now count first start channels result }
{
    let mut of = [false; 256];
    let mut at = start;
    let mut next: usize = 0;
    let end = first + count as usize;
    for line in first..end {
        let read = line::down_line(&s[at..]).ok_or(BadLine(line))?;
        let i = read.channel.0 as usize;
        if !down_allowed(next, channels[i], read.channel, read.unit) {
            return Err(BadLine(line));
        }
        let index = i * 16 + read.unit.0 as usize;
        of[index] = true;
        next = index + 1;
        at += 6;
    }
    Ok(Section { of, line: end, at })
}

// The code lines, from `start` on, where line `first` begins, as a word: bit k for code k. A code that is read is
// higher than those before it, so that adding its bit sets it.
pub fn read_codes(s: &[u8], count: u32, first: usize, start: usize) -> Result<Section<u64>, BadLine>
    requires { (start ≤ length s.now) × (first < 34359738368) }
    ensures { result ≡ codes_from count first start 0 no_codes (drop start s.now) }
{
    let mut of: u64 = 0;
    let mut at = start;
    let mut next: u8 = 0;
    let end = first + count as usize;
    for line in first..end {
        let code = line::code_line(&s[at..]).ok_or(BadLine(line))?;
        if code < next {
            return Err(BadLine(line));
        }
        of += 1 << code;
        next = code + 1;
        at += 3;
    }
    Ok(Section { of, line: end, at })
}
