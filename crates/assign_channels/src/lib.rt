// The channels that a kind's entries get, by the number of assignable units on each channel.
#![tactic(auto)]

ghost use Rattle.std.specs.Prelude.{◌≡◌, ◌<◌, drop};
ghost use Rattle.assign_channels.specs.Choice.{total, LeastList};
ghost use Rattle.assign_channels.specs.Greedy.{cnt, hall_b, lowest_of};

use numbers::{ChannelNumber, LogicalChannel};

// Numbers of units by channel.
// Stays: no count may be passed for another (document 01), and two names are plainer than one table generic in its index.
#[derive(Clone, Copy)]
pub struct ByChannel(pub [u8; 16]);

// Numbers of units by logical channel. Neither of the two tables can be passed for the other.
#[derive(Clone, Copy)]
pub struct ByLogical(pub [u8; 16]);

// Whether there is a list of channels, and the one chosen, by logical channel.
#[derive(Clone, Copy)]
pub struct Picks {
    pub ok: bool,
    pub on: [ChannelNumber; 16],
}

// How many of a list are at least t. Each adds 1 or 0, without a branch, so that the compiler can look at several at a time.
fn count_ge(xs: &[u8], t: u8) -> usize
    ensures { result ≡ cnt t xs.now }
{
    xs.iter().map(|x| (t <= *x) as usize).sum()
}

// The threshold test: whether each entry from a logical channel on can have a channel of its own.
pub fn can_serve(counts: ByChannel, wants: ByLogical, from: LogicalChannel) -> bool
    ensures { result ≡ hall_b counts.0 (drop from.0 wants.0) }
{
    let there = counts.0;
    let start = (from.0 as usize).min(16);
    let asked = &wants.0[start..];
    asked
        .iter()
        .all(|t| *t == 0 || count_ge(asked, *t) <= count_ge(&there, *t))
}

// The lowest channel with n units after which the entries from a logical channel on can still be served; 16 where there
// is none.
fn lowest(counts: ByChannel, n: u8, wants: ByLogical, from: LogicalChannel) -> ChannelNumber
    ensures { result.0 ≡ lowest_of counts.0 n (drop from.0 wants.0) }
{
    let there = counts.0;
    for c in 0..16 {
        if n <= there[c] {
            let mut tried = counts;
            tried.0[c] = 0;
            if can_serve(tried, wants, from) {
                return ChannelNumber(c as u8);
            }
        }
    }
    ChannelNumber(16)
}

// All numbers of a list together: at most 16 * 255, so that 16 bits hold them; the compiler can then add eight at a time.
pub fn sum(xs: [u8; 16]) -> u16
    ensures { result ≡ total xs }
{
    xs.iter().map(|x| *x as u16).sum()
}

// The least list of channels, one for each entry with logical channel 1 to 15, that leaves the entry with logical
// channel 0 its units.
pub fn choose(counts: ByChannel, wants: ByLogical) -> Picks
    ensures { LeastList counts wants result }
{
    let mut on = [ChannelNumber(0); 16];
    let there = counts.0;
    let asked = wants.0;
    if sum(there) < sum(asked) {
        return Picks { ok: false, on };
    }
    if !can_serve(counts, wants, LogicalChannel(1)) {
        return Picks { ok: false, on };
    }
    let mut left = counts;
    for l in 1..16 {
        let n = asked[l];
        if 0 < n {
            let rest = LogicalChannel((l + 1) as u8);
            let channel = lowest(left, n, wants, rest);
            let c = channel.0 as usize;
            left.0[c] = 0;
            on[l] = channel;
        }
    }
    Picks { ok: true, on }
}
