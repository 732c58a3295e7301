// Tests over a whole text, and the number that its digits write.
#![tactic(auto)]

ghost use Rattle.std.specs.Prelude.{◌≡◌, ◌-◌, ◌≤◌, length};
ghost use Rattle.numbers.specs.Quoted.{byte};
ghost use Rattle.words.specs.Words.{passes, every, has, same, isnt, leading, value, number_in};

// A class of bytes: digits, letters, both, or both and the hyphen.
#[derive(Clone, Copy, PartialEq, Eq)]
pub enum Class {
    Digit,
    Letter,
    Alnum,
    Hyphened,
}

// Whether a byte is of a class.
pub fn is_of(class: Class, b: u8) -> bool
    ensures { result ≡ passes class b }
{
    match class {
        Class::Digit => text::is_digit(b),
        Class::Letter => text::is_letter(b),
        Class::Alnum => text::is_alnum(b),
        Class::Hyphened => text::is_alnum(b) || b == b'-',
    }
}

// How many bytes of a class a text begins with.
pub fn leading_of(class: Class, s: &[u8]) -> usize
    ensures { result ≡ length (leading (passes class) s.now) }
{
    s.iter().take_while(|b| is_of(class, **b)).count()
}

// Whether each byte of a text is of a class.
pub fn all_of(class: Class, s: &[u8]) -> bool
    ensures { result ≡ every (passes class) s.now }
{
    s.iter().all(|b| is_of(class, *b))
}

// Whether a byte stands in a text.
pub fn is_in(letters: &[u8], b: u8) -> bool
    ensures { result ≡ has letters.now b }
{
    letters.contains(&b)
}

// Whether each byte of a text is one of these letters.
pub fn all_in(letters: &[u8], s: &[u8]) -> bool
    ensures { result ≡ every (has letters.now) s.now }
{
    s.iter().all(|b| is_in(letters, *b))
}

// Whether two texts are the same.
pub fn is_same(s: &[u8], t: &[u8]) -> bool
    ensures { result ≡ same s.now t.now }
{
    s == t
}

// Where a byte first stands, the text's length if it does not.
pub fn until(s: &[u8], b: u8) -> usize
    ensures { result ≡ length (leading (isnt b) s.now) }
{
    s.iter().position(|x| *x == b).unwrap_or(s.len())
}

// The number that digits write: six of them, whatever bytes they are, stay within 32 bits.
fn value_of(s: &[u8]) -> u32
    requires { length s.now ≤ 6 }
    ensures { result ≡ value s.now }
{
    let mut n: u32 = 0;
    for b in s {
        n = n * 10 + b.saturating_sub(b'0') as u32;
    }
    n
}

// The number that at most six digits write; 0 for a longer text.
#[tactic(auto, unfolding(crate::specs::Words::number_in))]
pub fn number(s: &[u8]) -> u32
    ensures { result ≡ number_in s.now }
{
    if 6 < s.len() { 0 } else { value_of(s) }
}
