// The proved functions as programs in C and Rust call them, under the names of include/strikebook.h, which says what
// each means in plain words. `export_c` gives C these names.
#![tactic(auto)]

ghost use Rattle.std.specs.Prelude.{[], ◌≡◌, T};
ghost use Rattle.book.specs.Books.{is_book};
ghost use Rattle.book.specs.Calls.{call_m, on, call_o, call_c, call_h, call_v, call_d, call_l, call_j, call_x, call_i, call_r, call_a};
ghost use Rattle.book.specs.CounterReads.{counter_read, counter_said};
ghost use Rattle.sheet_calls.specs.Sheets.{SheetRun};
ghost use Rattle.export.specs.CallReplies.{Answered, Carries, Started, counter_reply};

use word::answer::Answer;
use word::counter::CounterAnswer;

// The number and the value of an answer, document 01's.
#[repr(C)]
#[derive(Clone, Copy)]
pub struct Reply {
    pub number: u32,
    pub value: u32,
}

// One match, and no `number_of` and `value_of`, with which a call that is refused at once takes a fifth longer.
impl From<Answer> for Reply {
    ghost from_gives = { λ answer reply. Carries reply answer };

    fn from(answer: Answer) -> Reply {
        match answer {
            Ok(accepted) => Reply {
                number: 0,
                value: accepted.value(),
            },
            Err(refusal) => Reply {
                number: refusal.number(),
                value: refusal.value(),
            },
        }
    }
}

// What a reader of a counter is answered: the number, and the own classes and the strikes of the program.
#[repr(C)]
#[derive(Clone, Copy)]
pub struct CounterReply {
    pub number: u32,
    pub own: u32,
    pub strikes: u32,
}

impl From<CounterAnswer> for CounterReply {
    ghost from_gives = { λ answer reply. reply ≡ counter_reply answer };

    fn from(answer: CounterAnswer) -> CounterReply {
        match answer {
            Ok(counts) => CounterReply {
                number: 0,
                own: counts.own,
                strikes: counts.strikes,
            },
            Err(refusal) => CounterReply {
                number: refusal.number(),
                own: 0,
                strikes: 0,
            },
        }
    }
}

// Whether the run is a book.
pub fn strike_book_is_book(run: &[u32]) -> bool
    ensures { result ≡ is_book run.now }
{
    scan::is_book(run)
}

// Makes a fresh book of the run.
pub fn strike_book_fresh(run: &mut [u32]) -> Reply
    ensures { Started run.old result run.new }
{
    Reply::from(scan::fresh(run))
}

// `M`.
pub fn strike_book_set_month(run: &mut [u32], m: u32) -> Reply
    ensures { Answered (call_m m) run.old [] result run.new [] }
{
    Reply::from(call::set_month(run, m))
}

// `O`.
pub fn strike_book_open_class(run: &mut [u32], c: u32) -> Reply
    ensures { Answered (on c call_o) run.old [] result run.new [] }
{
    Reply::from(call::open_class(run, c))
}

// `C`.
pub fn strike_book_set_close(run: &mut [u32], c: u32, p: u32) -> Reply
    ensures { Answered (on c (call_c p)) run.old [] result run.new [] }
{
    Reply::from(call::set_close(run, c, p))
}

// `H`.
pub fn strike_book_set_low_high(run: &mut [u32], c: u32, low: u32, high: u32) -> Reply
    ensures { Answered (on c (call_h low high)) run.old [] result run.new [] }
{
    Reply::from(call::set_low_high(run, c, low, high))
}

// `V`.
pub fn strike_book_set_volume(run: &mut [u32], c: u32, n: u32) -> Reply
    ensures { Answered (on c (call_v n)) run.old [] result run.new [] }
{
    Reply::from(call::set_volume(run, c, n))
}

// `D`.
pub fn strike_book_designate(run: &mut [u32], c: u32, p: u32, d: u32) -> Reply
    ensures { Answered (on c (call_d p d)) run.old [] result run.new [] }
{
    Reply::from(call::designate(run, c, p, d))
}

// `L`.
pub fn strike_book_list_strike(run: &mut [u32], c: u32, m: u32, h: u32) -> Reply
    ensures { Answered (on c (call_l m h)) run.old [] result run.new [] }
{
    Reply::from(call::list_strike(run, c, m, h))
}

// `J`.
pub fn strike_book_judge_strike(run: &[u32], c: u32, m: u32, h: u32) -> Reply
    ensures { Answered (on c (call_j m h)) run.now [] result run.now [] }
{
    Reply::from(call::judge_strike(run, c, m, h))
}

// `X`.
pub fn strike_book_delist_strike(run: &mut [u32], c: u32, m: u32, h: u32) -> Reply
    ensures { Answered (on c (call_x m h)) run.old [] result run.new [] }
{
    Reply::from(call::delist_strike(run, c, m, h))
}

// `I`.
pub fn strike_book_mark_strike(run: &mut [u32], c: u32, m: u32, h: u32, a: u32, b: u32) -> Reply
    ensures { Answered (on c (call_i m h a b)) run.old [] result run.new [] }
{
    Reply::from(call::mark_strike(run, c, m, h, a, b))
}

// `R`.
pub fn strike_book_review_class(run: &mut [u32], c: u32) -> Reply
    ensures { Answered (on c call_r) run.old [] result run.new [] }
{
    Reply::from(call::review_class(run, c))
}

// `A`.
pub fn strike_book_list_permitted(run: &[u32], second: &mut [u32], c: u32, m: u32) -> Reply
    ensures { Answered (on c (call_a m)) run.now second.old
        result run.now second.new }
{
    Reply::from(call::list_permitted(run, second, c, m))
}

// A whole sheet.
pub fn strike_book_run_sheet(
    run: &mut [u32],
    second: &mut [u32],
    sheet: &[u8],
    answers: &mut [u32],
) -> usize
    ensures { SheetRun run.old second.old sheet.now answers.old
        result run.new second.new answers.new }
{
    sheet_calls::sheet::run_sheet(run, second, sheet, answers)
}

// The counter of a program, over any words.
pub fn strike_book_read_counter(run: &[u32], p: u32) -> CounterReply
    ensures { result ≡ counter_reply (counter_read p run.now) }
{
    CounterReply::from(call::read_counter(run, p))
}

// The same over a run that is known to be a book.
pub fn strike_book_read_known_counter(run: &[u32], p: u32) -> CounterReply
    ensures { (result ≡ counter_reply (counter_said p run.now))
        × (T (is_book run.now) → result ≡ counter_reply (counter_read p run.now)) }
{
    CounterReply::from(call::read_known_counter(run, p))
}
