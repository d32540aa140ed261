// The counters of a book, one for each program, each at the index of its number: the own classes of the program, and
// the standing strikes on its grounds.
ghost use Rattle.std.specs.Prelude.{◌≡◌, ◌≤◌, length};
ghost use Rattle.word.specs.Limits.{longest_run};
ghost use Rattle.word.specs.Kinds.{counter_kind, strikes_field};
ghost use Rattle.word.specs.Programs.{number_of, program, programs};
ghost use Rattle.word.specs.Head.{are_counters, first_place, is_counter, with_counter};
ghost use Rattle.word.specs.Counters.{Addable, AreAmong, AreFew, Settable, Writable, counts_in, ground_key, is_key_of, own_set, strike_among, strike_of, strikes_added, strikes_among, strikes_said, strikes_set, strikes_taken, together, with_strikes, without};

use crate::answer::Refusal;
use crate::codec::counter_word;
use crate::field::{Field, field_of};
use crate::grounds::{DOLLAR_GROUND, HALF_GROUND, TWO_FIFTY_GROUND, WING_GROUND};
use crate::kind::{COUNTER, KINDRED, STRIKE, is_bare, key_of, kind_of};
use crate::programs::{COUNT, Program};
use crate::strike::GROUND;

// Where a counter holds its strikes.
pub const STRIKES: Field = Field { low: 8, width: 16 };

// No strikes of any program.
pub const NO_STRIKES: [u32; COUNT] = [0; COUNT];

// What the counter of a program says.
#[derive(Clone, Copy)]
pub struct Counts {
    pub own: u32,
    pub strikes: u32,
}

// What a reader of a counter is answered.
pub type CounterAnswer = Result<Counts, Refusal>;

impl Counts {
    pub const NONE: Counts = Counts { own: 0, strikes: 0 };
}

// A word that is a counter.
fn is_counter(w: u32) -> bool
    ensures { result ≡ is_counter w }
{
    is_bare(w, COUNTER, STRIKES.low + STRIKES.width)
}

// Whether a run has a counter for each program.
pub fn are_counters(run: &[u32]) -> bool
    requires { first_place ≤ length run.now }
    ensures { result ≡ are_counters run.now }
{
    is_counter(run[Program::Dollar as usize])
        & (is_counter(run[Program::Half as usize]) & is_counter(run[Program::TwoFifty as usize]))
}

// What the counter of a program says.
pub fn read(run: &[u32], program: Program) -> Counts
    requires { first_place ≤ length run.now }
    ensures { result ≡ counts_in (number_of program) run.now }
{
    let w = run[program as usize];
    Counts {
        own: key_of(w, COUNTER),
        strikes: field_of(w, STRIKES),
    }
}

pub fn write(run: &mut [u32], program: Program, counts: Counts)
    requires { Writable run.old counts }
    ensures { run.new ≡ with_counter (number_of program) counts.own counts.strikes run.old }
{
    run[program as usize] = counter_word(counts.own, counts.strikes);
}

// The kind and the ground of a word, without its other fields.
fn ground_key(w: u32) -> u32
    ensures { result ≡ ground_key w }
{
    kind_of(w) * KINDRED + (field_of(w, GROUND) << GROUND.low)
}

// Those of the strike words on a ground.
const DOLLAR_KEY: u32 = STRIKE.number * KINDRED + (DOLLAR_GROUND << GROUND.low);

const HALF_KEY: u32 = STRIKE.number * KINDRED + (HALF_GROUND << GROUND.low);

const WING_KEY: u32 = STRIKE.number * KINDRED + (WING_GROUND << GROUND.low);

const TWO_FIFTY_KEY: u32 = STRIKE.number * KINDRED + (TWO_FIFTY_GROUND << GROUND.low);

// Whether they are those of strike words on a ground of the program's.
fn is_key_of(key: u32, p: Program) -> bool
    ensures { result ≡ is_key_of key (program (number_of p)) }
{
    match p {
        Program::Dollar => (key == DOLLAR_KEY) | (key == WING_KEY),
        Program::Half => key == HALF_KEY,
        Program::TwoFifty => key == TWO_FIFTY_KEY,
    }
}

// 1 for a strike word on a ground of the program's, else 0. Kind and ground are compared as one number, so that a word
// takes one mask, and one comparison for each program.
fn strike_of(w: u32, p: Program) -> u32
    ensures { result ≡ strike_of (number_of p) w }
{
    if is_key_of(ground_key(w), p) { 1 } else { 0 }
}

// Strikes of each program, in their order, are an array. Here, that of one word.
pub fn strike_among(w: u32) -> [u32; COUNT]
    ensures { result ≡ strike_among w }
{
    [
        strike_of(w, Program::Dollar),
        strike_of(w, Program::Half),
        strike_of(w, Program::TwoFifty),
    ]
}

// These strikes and those.
pub fn together(these: [u32; COUNT], those: [u32; COUNT]) -> [u32; COUNT]
    requires { AreFew these × AreFew those }
    ensures { result ≡ together these those }
{
    [
        these[0] + those[0],
        these[1] + those[1],
        these[2] + those[2],
    ]
}

// The strikes among words. Every word is looked at by itself, without a branch, so that it runs many words at a time.
pub fn strikes_among(words: &[u32]) -> [u32; COUNT]
    requires { length words.now ≤ longest_run }
    ensures { result ≡ strikes_among words.now }
{
    let mut strikes = NO_STRIKES;
    for w in words {
        let more = together(strikes, strike_among(*w));
        strikes = more;
    }
    strikes
}

// All strikes less some of them.
fn without(all: [u32; COUNT], some: [u32; COUNT]) -> [u32; COUNT]
    requires { AreAmong all some }
    ensures { result ≡ without all some }
{
    [all[0] - some[0], all[1] - some[1], all[2] - some[2]]
}

// The strikes that the counters of a run say.
pub fn strikes_said(run: &[u32]) -> [u32; COUNT]
    requires { first_place ≤ length run.now }
    ensures { result ≡ strikes_said run.now }
{
    [
        read(run, Program::Dollar).strikes,
        read(run, Program::Half).strikes,
        read(run, Program::TwoFifty).strikes,
    ]
}

// Sets the strikes of a program; its own classes stay.
fn set_strikes(run: &mut [u32], program: Program, strikes: u32)
    requires { Settable run.old strikes strikes_field.width }
    ensures { run.new ≡ strikes_set (number_of program) strikes run.old }
{
    let counts = read(run, program);
    write(run, program, Counts { strikes, ..counts });
}

// Sets the own classes of a program; its strikes stay.
pub fn set_own(run: &mut [u32], program: Program, own: u32)
    requires { Settable run.old own counter_kind.width }
    ensures { run.new ≡ own_set (number_of program) own run.old }
{
    let counts = read(run, program);
    write(run, program, Counts { own, ..counts });
}

// Writes these strikes to the counters of a run, whose own classes stay.
fn write_strikes(run: &mut [u32], strikes: [u32; COUNT])
    requires { (first_place ≤ length run.old) × AreFew strikes }
    ensures { run.new ≡ with_strikes programs strikes run.old }
{
    set_strikes(run, Program::Dollar, strikes[0]);
    set_strikes(run, Program::Half, strikes[1]);
    set_strikes(run, Program::TwoFifty, strikes[2]);
}

// Counts these strikes too.
pub fn add_strikes(run: &mut [u32], more: [u32; COUNT])
    requires { Addable run.old more }
    ensures { run.new ≡ strikes_added more run.old }
{
    let strikes = together(strikes_said(run), more);
    write_strikes(run, strikes);
}

// Counts some strikes no longer.
pub fn take_strikes(run: &mut [u32], some: [u32; COUNT])
    requires { (first_place ≤ length run.old) × AreAmong (strikes_said run.old) some }
    ensures { run.new ≡ strikes_taken some run.old }
{
    let strikes = without(strikes_said(run), some);
    write_strikes(run, strikes);
}
