// Keyboard messages: what the operator types, `DWN Ccc Uuu`, `AVL Ccc Uuu`, `SEL jrid` or `DEL jrid`, and what it asks
// for. Any bytes are a message.
#![tactic(auto)]

ghost use Rattle.std.specs.Prelude.{◌≡◌, true, [], min, get_or};
ghost use Rattle.numbers.specs.Quoted.{byte};
ghost use Rattle.text.specs.Class.{is_digit};
ghost use Rattle.words.specs.Words.{every, value};
ghost use Rattle.keyboard.specs.Messages.{message_words, is_message, number_field, after_channel, on_unit, on_request, saying, read_message};
ghost use Rattle.keyboard.specs.Messages.{fault_number};
ghost use Rattle.keyboard.specs.declared.Fault.TheVariants.{UnitTooLarge};

use numbers::{ChannelNumber, UnitNumber};
use words::Class;

// The four message words.
#[derive(Clone, Copy, PartialEq, Eq)]
pub enum Word {
    Dwn,
    Avl,
    Sel,
    Del,
}

// What can be wrong with a field: it is missing, without its letter, or has nothing behind that; a unit or channel
// number over 15; a nondigit in a number.
#[derive(Clone, Copy, PartialEq, Eq)]
pub enum Fault {
    NoLength = 1,
    UnitTooLarge = 5,
    NotADigit = 10,
    ChannelTooLarge = 12,
}

// What a message asks for. Unknown: it has no message word of ours, or text after its last field. Wrong: its word, and
// the first fault of its fields. Mark: DWN sets the down mark of the unit, AVL clears it. The ID of a release, SEL, or
// a deletion, DEL, stands beside.
#[derive(Clone, Copy, PartialEq, Eq)]
pub enum Asked {
    Unknown,
    Wrong(Word, Fault),
    Mark(ChannelNumber, UnitNumber, bool),
    Release,
    Delete,
}

// A message: what it asks for, with the ID that it names, blanks where it names none.
#[derive(Clone, Copy, PartialEq, Eq)]
pub struct Message {
    pub asks: Asked,
    pub id: [u8; 6],
}

// A fault's number.
pub fn number_of(fault: Fault) -> u8
    ensures { result ≡ fault_number fault }
{
    fault as u8
}

// The word at an index of a message, the first at 0; empty where there is none. Spaces before, behind and between words
// make empty pieces, which are passed over.
fn word_at(message: &[u8], k: usize) -> &[u8]
    ensures { result.now ≡ get_or (message_words message.now) k [] }
{
    let mut left = k;
    let mut at: usize = 0;
    // Stays: a turn goes on by a word and its space, and not by one.
    loop {
        let len = words::until(&message[at..], b' ');
        let end = at + len;
        if 0 < len {
            if left == 0 {
                return &message[at..end];
            }
            left -= 1;
        }
        if end == message.len() {
            return &message[0..0];
        }
        at = end + 1;
    }
}

// Whether a message has this word, and no more words than that and its fields.
fn is_message(message: &[u8], mc: &[u8], most: usize) -> bool
    ensures { result ≡ is_message mc.now most (message_words message.now) }
{
    word_at(message, 0) == mc && word_at(message, most).is_empty()
}

// The number that digits write, or 16 if it is larger: once it is past 15 it stays so, however many digits follow.
fn small_value(digits: &[u8]) -> u8
    requires { every is_digit digits.now ≡ true }
    ensures { result ≡ min (value digits.now) 16 }
{
    let mut n: u8 = 0;
    for b in digits {
        n = n * 10 + (*b - b'0');
        if 15 < n {
            return 16;
        }
    }
    n
}

// What a field with a number says: its letter, and digits behind it that write the number, 0 to 15; or its first fault.
fn number_field(letter: u8, large: Fault, field: &[u8]) -> Result<u8, Fault>
    ensures { result ≡ number_field letter large field.now }
{
    if field.len() <= 1 {
        return Err(Fault::NoLength);
    }
    if field[0] != letter {
        return Err(Fault::NoLength);
    }
    let digits = &field[1..];
    if !words::all_of(Class::Digit, digits) {
        return Err(Fault::NotADigit);
    }
    let number = small_value(digits);
    if 15 < number { Err(large) } else { Ok(number) }
}

// The unit field, behind a channel.
fn after_channel(word: Word, on: bool, channel: u8, field: &[u8]) -> Asked
    ensures { result ≡ after_channel word on channel (number_field (byte "U") UnitTooLarge field.now) }
{
    match number_field(b'U', Fault::UnitTooLarge, field) {
        Ok(unit) => Asked::Mark(ChannelNumber(channel), UnitNumber(unit), on),
        Err(fault) => Asked::Wrong(word, fault),
    }
}

// A message on a unit: the channel field, then the unit field.
fn on_unit(word: Word, on: bool, message: &[u8]) -> Asked
    ensures { result ≡ on_unit word on (message_words message.now) }
{
    match number_field(b'C', Fault::ChannelTooLarge, word_at(message, 1)) {
        Ok(channel) => after_channel(word, on, channel, word_at(message, 2)),
        Err(fault) => Asked::Wrong(word, fault),
    }
}

// A message on a request: the ID.
#[tactic(auto, unfolding(crate::specs::Messages::on_request))]
fn on_request(word: Word, call: Asked, message: &[u8]) -> Asked
    ensures { result ≡ on_request word call (message_words message.now) }
{
    if word_at(message, 1).is_empty() {
        return Asked::Wrong(word, Fault::NoLength);
    }
    call
}

// A message that names the ID of this word; no ID where the word is empty.
fn message_of(asks: Asked, word: &[u8]) -> Message
    ensures { result ≡ saying asks word.now }
{
    Message {
        asks,
        id: line_words::id_of(word),
    }
}

// What a message asks for.
pub fn read(message: &[u8]) -> Message
    ensures { result ≡ read_message message.now }
{
    if is_message(message, b"DWN", 3) {
        return message_of(on_unit(Word::Dwn, true, message), b"");
    }
    if is_message(message, b"AVL", 3) {
        return message_of(on_unit(Word::Avl, false, message), b"");
    }
    if is_message(message, b"SEL", 2) {
        return message_of(
            on_request(Word::Sel, Asked::Release, message),
            word_at(message, 1),
        );
    }
    if is_message(message, b"DEL", 2) {
        return message_of(
            on_request(Word::Del, Asked::Delete, message),
            word_at(message, 1),
        );
    }
    message_of(Asked::Unknown, b"")
}
