// The configuration of a cell, read from text.
#![tactic(auto)]

mod line;
mod section;

ghost use Rattle.std.specs.Prelude.{◌≤◌, ◌<◌, ◌≡◌, length};
ghost use Rattle.configuration.specs.Configured.{third_section, configuration_of};

use crate::section::Section;
use channels::Configuration;
use numbers::limits;

// Refusal 14: the first bad or missing line, counted from 1.
#[derive(Clone, Copy, PartialEq, Eq)]
pub struct BadLine(pub usize);

// The third section with its count, from `at` on, where line `line` begins; nothing follows it.
fn read_third(s: &[u8], line: usize, at: usize) -> Result<Section<u64>, BadLine>
    requires { (at ≤ length s.now) × (line < 17179869184) }
    ensures { result ≡ third_section s.now line at }
{
    let (n, k) = line::last_number(&s[at..], 0, limits::MOST_CODES).ok_or(BadLine(line))?;
    let third = section::read_codes(s, n, line + 1, at + k)?;
    if third.at < s.len() {
        return Err(BadLine(third.line));
    }
    Ok(third)
}

// Reads a configuration.
pub fn read(s: &[u8]) -> Result<Configuration, BadLine>
    ensures { result ≡ configuration_of s.now }
{
    let (n, k) = line::last_number(s, 0, 16).ok_or(BadLine(1))?;
    let first = section::read_channels(s, n, k)?;
    let line = first.line;
    let at = first.at;
    let (m, j) = line::last_number(&s[at..], 0, 256).ok_or(BadLine(line))?;
    let channels = first.of;
    let second = section::read_downs(s, m, line + 1, at + j, channels)?;
    let down = second.of;
    let third = read_third(s, second.line, second.at)?;
    Ok(Configuration {
        channels,
        down,
        codes: third.of,
    })
}
