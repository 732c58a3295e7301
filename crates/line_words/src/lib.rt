// A line's words against a form, and what they write: numbers and IDs.
#![tactic(auto)]

ghost use Rattle.std.specs.Prelude.{◌≡◌, true, [], ◌≤◌, length, get_or};
ghost use Rattle.words.specs.Words.{every};
ghost use Rattle.text.specs.Class.{is_digit};
ghost use Rattle.line_words.specs.Forms.{words_of, is_number, value_in, number_in, base_of, word_fits, fitting, id_of};

// How a word writes a number: in decimal, or, where the script says `ff`, in octal.
#[derive(Clone, Copy, PartialEq, Eq)]
pub enum Base {
    Decimal = 10,
    Octal = 8,
}

// The word at an index of a line, the first at 0; empty where there is none.
fn word_at(line: &[u8], k: usize) -> &[u8]
    ensures { result.now ≡ get_or (words_of line.now) k [] }
{
    let mut left = k;
    let mut at: usize = 0;
    // Stays: a turn goes on by a word and its space, and not by one.
    loop {
        let len = words::until(&line[at..], b' ');
        let end = at + len;
        if left == 0 {
            return &line[at..end];
        }
        if end == line.len() {
            return &line[0..0];
        }
        left -= 1;
        at = end + 1;
    }
}

// Whether a word is a number: 1 to 9 digits of its base.
fn is_number(base: Base, word: &[u8]) -> bool
    ensures { result ≡ is_number base word.now }
{
    if word.len() == 0 {
        return false;
    }
    if 9 < word.len() {
        return false;
    }
    match base {
        Base::Decimal => words::all_in(b"0123456789", word),
        Base::Octal => words::all_in(b"01234567", word),
    }
}

// How many digits a base has.
fn base_of(base: Base) -> u32
    ensures { result ≡ base_of base }
{
    base as u32
}

// The number that digits write: nine of them stay within 32 bits.
fn value_of(base: u32, word: &[u8]) -> u32
    requires { (base ≤ 10) × ((length word.now ≤ 9) × (every is_digit word.now ≡ true)) }
    ensures { result ≡ value_in base 0 word.now }
{
    let mut n: u32 = 0;
    for b in word {
        n = n * base + (*b - b'0') as u32;
    }
    n
}

// The number that a word of a line writes; 0 where it is no number.
pub fn number_at(base: Base, line: &[u8], k: usize) -> u32
    ensures { result ≡ number_in base (get_or (words_of line.now) k []) }
{
    let word = word_at(line, k);
    if !is_number(base, word) {
        return 0;
    }
    value_of(base_of(base), word)
}

// Whether a word of a line is what a word of a form asks for.
fn word_fits(word: &[u8], form: &[u8]) -> bool
    ensures { result ≡ word_fits form.now word.now }
{
    if text::is_letter(text::byte_at(form, 0)) {
        return words::is_same(word, form);
    }
    if words::is_same(form, b"ff") {
        return is_number(Base::Octal, word);
    }
    if words::is_same(form, b"id") {
        return 0 < word.len();
    }
    is_number(Base::Decimal, word)
}

// Whether a line has exactly the words of a form.
pub fn fits(line: &[u8], form: &[u8]) -> bool
    ensures { result ≡ fitting (words_of form.now) (words_of line.now) }
{
    let mut at: usize = 0;
    let mut on: usize = 0;
    // Stays: a turn goes on by a word of the line and one of the form, and not by one.
    loop {
        let len = words::until(&line[at..], b' ');
        let end = at + len;
        let size = words::until(&form[on..], b' ');
        let stop = on + size;
        if !word_fits(&line[at..end], &form[on..stop]) {
            return false;
        }
        if end == line.len() {
            return stop == form.len();
        }
        if stop == form.len() {
            return false;
        }
        at = end + 1;
        on = stop + 1;
    }
}

// A word in the six bytes of an ID, blanks behind it; a longer word is no ID and leaves blanks alone.
pub fn id_of(word: &[u8]) -> [u8; 6]
    ensures { result ≡ id_of word.now }
{
    let mut id = [b' '; 6];
    if 6 < word.len() {
        return id;
    }
    for (i, b) in word.iter().enumerate() {
        id[i] = *b;
    }
    id
}

// The ID that a word of a line writes.
pub fn id_at(line: &[u8], k: usize) -> [u8; 6]
    ensures { result ≡ id_of (get_or (words_of line.now) k []) }
{
    id_of(word_at(line, k))
}
