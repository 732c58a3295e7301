// Which functions are legal on which kind of channel.
#![tactic(auto)]

mod table;

ghost use Rattle.std.specs.Prelude.{◌≡◌};
ghost use Rattle.functions.specs.Legal.{legal_of};

use numbers::Kind;

// Whether a function code is legal on channels of a kind; no code over 77 octal is.
pub fn legal(kind: Kind, code: u8) -> bool
    ensures { result ≡ legal_of kind code }
{
    let row = numbers::row_of(kind);
    code < 64 && table::LEGAL[row * 64 + code as usize]
}
