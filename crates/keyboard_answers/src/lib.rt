// What is answered to a keyboard message: `mc ACK`, or `mc ee IN ER`.
#![tactic(auto)]

ghost use Rattle.std.specs.Prelude.{◌≡◌};
ghost use Rattle.text.specs.Room.{Whole, Puts};
ghost use Rattle.keyboard_answers.specs.MessageAnswers.{word_text, mark_word, mc_of, shown_number, error_text, said_text, told_text, answer_text};

use keyboard::{Asked, Fault, Word};
use numbers::Refusal;
use packets::Answer;
use text::room::Room;

// What the operator is told: what the call answered that the message is, or its first fault. An unknown message is told
// as a call that was refused.
pub type Told = Result<Answer, Fault>;

// Puts a message word.
fn put_word(out: &mut Room, word: Word)
    ensures { Puts out.old (word_text word) out.new }
{
    match word {
        Word::Dwn => out.put_bytes(b"DWN"),
        Word::Avl => out.put_bytes(b"AVL"),
        Word::Sel => out.put_bytes(b"SEL"),
        Word::Del => out.put_bytes(b"DEL"),
    }
}

// The word of a message on a unit: DWN sets the mark, AVL clears it.
fn mark_word(on: bool) -> Word
    ensures { result ≡ mark_word on }
{
    if on { Word::Dwn } else { Word::Avl }
}

// Puts what stands for mc.
fn put_mc(out: &mut Room, asks: Asked)
    ensures { Puts out.old (mc_of asks) out.new }
{
    match asks {
        Asked::Unknown => out.put_bytes(b"---"),
        Asked::Wrong(word, _) => put_word(out, word),
        Asked::Mark(_, _, on) => put_word(out, mark_word(on)),
        Asked::Release => put_word(out, Word::Sel),
        Asked::Delete => put_word(out, Word::Del),
    }
}

// The number that a refusal shows as.
#[tactic(auto, unfolding(crate::specs::MessageAnswers::shown_number))]
fn shown_number(refusal: Refusal) -> u8
    ensures { result ≡ shown_number refusal }
{
    let n = numbers::number_of(refusal);
    if n == 1 { 31 } else { n }
}

// Puts ` ee IN ER`.
fn put_error(out: &mut Room, n: u8)
    ensures { Puts out.old (error_text n) out.new }
{
    out.put_byte(b' ');
    out.put_decimal(n as u64);
    out.put_bytes(b" IN ER");
}

// Puts what the call answered.
fn put_said(out: &mut Room, answer: Answer)
    ensures { Puts out.old (said_text answer) out.new }
{
    match answer {
        Answer::Done | Answer::Started(_) | Answer::Completed(_, _, _) | Answer::Closed(_, _) => {
            out.put_bytes(b" ACK")
        }
        Answer::Refused(refusal) => put_error(out, shown_number(refusal)),
    }
}

// Puts what was told.
fn put_told(out: &mut Room, told: Told)
    ensures { Puts out.old (told_text told) out.new }
{
    match told {
        Ok(answer) => put_said(out, answer),
        Err(fault) => put_error(out, keyboard::number_of(fault)),
    }
}

// Puts the answer to a message that asks for this and was told that. The longest has twelve characters, so that the
// room holds every one.
pub fn put(out: &mut [u8; 12], asks: Asked, told: Told) -> usize
    ensures { Whole (answer_text asks told) out.old out.new result }
{
    let mut room = Room { bytes: out, at: 0 };
    put_mc(&mut room, asks);
    put_told(&mut room, told);
    room.at
}
