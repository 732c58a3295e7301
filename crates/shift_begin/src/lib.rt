// The configuration in front of a script: whether the lines so far are one, are wrong, or are still to be followed by
// more.
#![tactic(auto)]

ghost use Rattle.std.specs.Prelude.{◌≡◌};
ghost use Rattle.shift_begin.specs.Opening.{said_so_far, opening_of};

use channels::Configuration;
use configuration::BadLine;

// More lines are due; they are this configuration; or this line is bad, whatever follows.
#[derive(Clone, Copy)]
pub enum Begun {
    More,
    Good(Configuration),
    Bad(BadLine),
}

// What a reader's answer to so many lines comes to: where more may come, a bad line that is not there yet is one that
// is due.
fn so_far(answer: Result<Configuration, BadLine>, more: bool, lines: usize) -> Begun
    ensures { result ≡ said_so_far answer more lines }
{
    match answer {
        Ok(configuration) => Begun::Good(configuration),
        Err(bad) if more && lines < bad.0 => Begun::More,
        Err(bad) => Begun::Bad(bad),
    }
}

// What the text so far begins, where more may come or not.
#[tactic(auto, unfolding(crate::specs::Opening::opening_of))]
pub fn judge(text: &[u8], more: bool) -> Begun
    ensures { result ≡ opening_of more text.now }
{
    so_far(
        configuration::read(text),
        more,
        cards_fields::deck::card_count(text),
    )
}
