// The functions of `export` under their C names: one export for each, with its clauses. include/strikebook.h says what
// each means in plain words.
#![tactic(auto)]

ghost use Rattle.std.specs.Prelude.{[], ◌≡◌, T};
ghost use Rattle.book.specs.Books.{is_book};
ghost use Rattle.book.specs.Calls.{call_m, on, call_o, call_c, call_h, call_v, call_d, call_l, call_j, call_x, call_i, call_r, call_a};
ghost use Rattle.book.specs.CounterReads.{counter_read, counter_said};
ghost use Rattle.sheet_calls.specs.Sheets.{SheetRun};
ghost use Rattle.export.specs.CallReplies.{Answered, Started, counter_reply};

use export::{CounterReply, Reply};

// Whether the run is a book.
#[unsafe(no_mangle)]
pub extern "C" fn strike_book_is_book(run: &[u32]) -> bool
    ensures { result ≡ is_book run.now }
{
    export::strike_book_is_book(run)
}

// Makes a fresh book of the run.
#[unsafe(no_mangle)]
pub extern "C" fn strike_book_fresh(run: &mut [u32]) -> Reply
    ensures { Started run.old result run.new }
{
    export::strike_book_fresh(run)
}

// `M`.
#[unsafe(no_mangle)]
pub extern "C" fn strike_book_set_month(run: &mut [u32], m: u32) -> Reply
    ensures { Answered (call_m m) run.old [] result run.new [] }
{
    export::strike_book_set_month(run, m)
}

// `O`.
#[unsafe(no_mangle)]
pub extern "C" fn strike_book_open_class(run: &mut [u32], c: u32) -> Reply
    ensures { Answered (on c call_o) run.old [] result run.new [] }
{
    export::strike_book_open_class(run, c)
}

// `C`.
#[unsafe(no_mangle)]
pub extern "C" fn strike_book_set_close(run: &mut [u32], c: u32, p: u32) -> Reply
    ensures { Answered (on c (call_c p)) run.old [] result run.new [] }
{
    export::strike_book_set_close(run, c, p)
}

// `H`.
#[unsafe(no_mangle)]
pub extern "C" fn strike_book_set_low_high(run: &mut [u32], c: u32, low: u32, high: u32) -> Reply
    ensures { Answered (on c (call_h low high)) run.old [] result run.new [] }
{
    export::strike_book_set_low_high(run, c, low, high)
}

// `V`.
#[unsafe(no_mangle)]
pub extern "C" fn strike_book_set_volume(run: &mut [u32], c: u32, n: u32) -> Reply
    ensures { Answered (on c (call_v n)) run.old [] result run.new [] }
{
    export::strike_book_set_volume(run, c, n)
}

// `D`.
#[unsafe(no_mangle)]
pub extern "C" fn strike_book_designate(run: &mut [u32], c: u32, p: u32, d: u32) -> Reply
    ensures { Answered (on c (call_d p d)) run.old [] result run.new [] }
{
    export::strike_book_designate(run, c, p, d)
}

// `L`.
#[unsafe(no_mangle)]
pub extern "C" fn strike_book_list_strike(run: &mut [u32], c: u32, m: u32, h: u32) -> Reply
    ensures { Answered (on c (call_l m h)) run.old [] result run.new [] }
{
    export::strike_book_list_strike(run, c, m, h)
}

// `J`.
#[unsafe(no_mangle)]
pub extern "C" fn strike_book_judge_strike(run: &[u32], c: u32, m: u32, h: u32) -> Reply
    ensures { Answered (on c (call_j m h)) run.now [] result run.now [] }
{
    export::strike_book_judge_strike(run, c, m, h)
}

// `X`.
#[unsafe(no_mangle)]
pub extern "C" fn strike_book_delist_strike(run: &mut [u32], c: u32, m: u32, h: u32) -> Reply
    ensures { Answered (on c (call_x m h)) run.old [] result run.new [] }
{
    export::strike_book_delist_strike(run, c, m, h)
}

// `I`.
#[unsafe(no_mangle)]
pub extern "C" fn strike_book_mark_strike(
    run: &mut [u32],
    c: u32,
    m: u32,
    h: u32,
    a: u32,
    b: u32,
) -> Reply
    ensures { Answered (on c (call_i m h a b)) run.old [] result run.new [] }
{
    export::strike_book_mark_strike(run, c, m, h, a, b)
}

// `R`.
#[unsafe(no_mangle)]
pub extern "C" fn strike_book_review_class(run: &mut [u32], c: u32) -> Reply
    ensures { Answered (on c call_r) run.old [] result run.new [] }
{
    export::strike_book_review_class(run, c)
}

// `A`.
#[unsafe(no_mangle)]
pub extern "C" fn strike_book_list_permitted(
    run: &[u32],
    second: &mut [u32],
    c: u32,
    m: u32,
) -> Reply
    ensures { Answered (on c (call_a m)) run.now second.old
        result run.now second.new }
{
    export::strike_book_list_permitted(run, second, c, m)
}

// A whole sheet.
#[unsafe(no_mangle)]
pub extern "C" fn strike_book_run_sheet(
    run: &mut [u32],
    second: &mut [u32],
    sheet: &[u8],
    answers: &mut [u32],
) -> usize
    ensures { SheetRun run.old second.old sheet.now answers.old
        result run.new second.new answers.new }
{
    export::strike_book_run_sheet(run, second, sheet, answers)
}

// The counter of a program, over any words.
#[unsafe(no_mangle)]
pub extern "C" fn strike_book_read_counter(run: &[u32], p: u32) -> CounterReply
    ensures { result ≡ counter_reply (counter_read p run.now) }
{
    export::strike_book_read_counter(run, p)
}

// The same over a run that is known to be a book.
#[unsafe(no_mangle)]
pub extern "C" fn strike_book_read_known_counter(run: &[u32], p: u32) -> CounterReply
    ensures { (result ≡ counter_reply (counter_said p run.now))
        × (T (is_book run.now) → result ≡ counter_reply (counter_read p run.now)) }
{
    export::strike_book_read_known_counter(run, p)
}
