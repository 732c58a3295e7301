// What the programs that run cases share: the files that their arguments name, two for each case, and the count of
// those that agree.
#![tactic(auto)]

ghost use Rattle.std.specs.Prelude.{◌≡◌, ℕ, ◌≤◌, Bool, true, false, List, length, take};
ghost use Rattle.cases.specs.Tallies.{first_of, two_on, judged_of};

use std::env::{Env, FillError};
use std::fs::File;
use std::rt::Files;

// Room for the name of a file.
const NAME: usize = 4096;

// Whether a file is there, and how many bytes of it stand in the room for it.
#[derive(Clone, Copy)]
pub struct Loaded {
    pub there: bool,
    pub len: usize,
}

// Cases that are run: an input, and whether what comes out of it is what must.
pub trait Cases {
    // What must come out of an input, as far as it is said.
    ghost right: { List ℕ → List ℕ → Bool };

    // Whether this comes out of this input.
    fn agrees(&self, given: &[u8], due: &[u8]) -> bool
        ensures { result ≡ true → right given.now due.now ≡ true };
}

// The argument that names the next case's input, how many arguments there are, and how many cases agree so far.
#[derive(Clone, Copy)]
pub struct Tally {
    pub at: usize,
    pub count: usize,
    pub good: u64,
}

// Puts argument i into a room, and answers its length: 0 where there is none, or where the room is too small.
fn name_of(rt: &impl Env, i: usize, room: &mut [u8; NAME]) -> usize
    ensures { result ≤ length room.new }
{
    rt.arg(i, room).unwrap_or(0)
}

// Opens the file of this name; none where there is no such file. A name that is no UTF-8 names none.
fn opened<R: Files>(rt: &R, name: &[u8]) -> Option<R::File> {
    match std::str::from_utf8(name) {
        Ok(path) => File::open(rt, path).ok(),
        Err(_) => None,
    }
}

// Puts the file that argument i names into a room; nothing where there is no such file.
pub fn load(rt: &(impl Env + Files), i: usize, room: &mut [u8]) -> Loaded
    ensures within { result.len ≤ length room.new }
    ensures counts { result.len ≡ length (take result.len room.new) }
    ensures none { result.there ≡ false → result.len ≡ 0 }
{
    let mut name = [0u8; NAME];
    let n = name_of(rt, i, &mut name);
    match opened(rt, &name[..n]) {
        Some(mut file) => Loaded {
            there: true,
            len: reading::fill(&mut file, room),
        },
        None => Loaded {
            there: false,
            len: 0,
        },
    }
}

// How many arguments there are, the program's own name among them.
fn arg_count(rt: &impl Env) -> usize {
    let mut name = [0u8; NAME];
    for i in 0..usize::MAX {
        match rt.arg(i, &mut name) {
            Ok(_) => {}
            Err(FillError::TooLong) => {}
            Err(FillError::NotPresent) => return i,
        }
    }
    usize::MAX
}

// Before the first case.
pub fn first(rt: &impl Env) -> Tally
    ensures { result ≡ first_of result.count }
{
    Tally {
        at: 1,
        count: arg_count(rt),
        good: 0,
    }
}

// Names a case that does not agree.
fn name_case(rt: &(impl Env + Print), i: usize) {
    let mut name = [0u8; NAME];
    let n = name_of(rt, i, &mut name);
    let _ = rt.write_all(&name[..n]);
    let _ = rt.write_all(b" differs\n");
}

// The argument two on, where there is one, else the end of them.
fn two_on(at: usize, count: usize) -> usize
    ensures { result ≡ two_on at count }
{
    if at < count && 2 < count - at {
        return at + 2;
    }
    count
}

// Counts a case that agrees, and names one that does not.
pub fn judged(rt: &(impl Env + Print), tally: Tally, agrees: bool) -> Tally
    ensures { result ≡ judged_of tally agrees }
{
    let at = tally.at;
    let count = tally.count;
    let good = tally.good;
    if agrees {
        return Tally {
            at: two_on(at, count),
            count,
            good: good.wrapping_add(1),
        };
    }
    name_case(rt, at);
    Tally {
        at: two_on(at, count),
        count,
        good,
    }
}

// Prints how many cases agree, and answers that number.
pub fn print(rt: &impl Print, tally: Tally) -> u64
    ensures { result ≡ tally.good }
{
    let good = tally.good;
    let _ = println!(rt; "{good} cases agree");
    good
}

// Whether what comes of the input that argument i names is what the next argument's file has; a missing file is a
// failure. Each file is put into a lent room.
fn agrees_at<C: Cases>(
    rt: &(impl Env + Files),
    i: usize,
    input: &mut [u8],
    wanted: &mut [u8],
    cases: &C,
) -> bool
    ensures { ((given due : List ℕ) → C.right given due ≡ false) → result ≡ false }
{
    let given = load(rt, i, input);
    let due = load(rt, i.wrapping_add(1), wanted);
    given.there && due.there && cases.agrees(&input[..given.len], &wanted[..due.len])
}

// Runs each case and prints how many agree: the arguments are the names of the inputs, each before what must come out.
// Only a case is counted that agrees.
pub fn run<C: Cases>(
    rt: &(impl Env + Files + Print),
    input: &mut [u8],
    wanted: &mut [u8],
    cases: &C,
) -> u64
    ensures { ((given due : List ℕ) → C.right given due ≡ false) → result ≡ 0 }
{
    let mut tally = first(rt);
    // Stays: the step is two arguments, and fewer at their end.
    while tally.at < tally.count {
        let agree = agrees_at(rt, tally.at, input, wanted, cases);
        tally = judged(rt, tally, agree);
    }
    print(rt, tally)
}
