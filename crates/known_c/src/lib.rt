// The functions of `known` under their C names: one export for each, with its clauses. They have an archive of their
// own, as the comparison of two lists has. include/strikebook.h says what a caller owes.
#![tactic(auto)]

ghost use Rattle.std.specs.Prelude.{[], T};
ghost use Rattle.book.specs.Books.{is_book};
ghost use Rattle.book.specs.Calls.{call_m, on, call_o, call_c, call_h, call_v, call_d, call_l, call_j, call_x, call_i, call_r, call_a};
ghost use Rattle.sheet_calls.specs.Sheets.{SheetRun};
ghost use Rattle.export.specs.CallReplies.{Answered};

use export::Reply;

// `M`.
#[unsafe(no_mangle)]
pub extern "C" fn strike_book_known_set_month(run: &mut [u32], m: u32) -> Reply
    requires { T (is_book run.old) }
    ensures { Answered (call_m m) run.old [] result run.new [] }
{
    known::strike_book_known_set_month(run, m)
}

// `O`.
#[unsafe(no_mangle)]
pub extern "C" fn strike_book_known_open_class(run: &mut [u32], places: &mut [u32], c: u32) -> Reply
    requires { T (is_book run.old) }
    ensures { Answered (on c call_o) run.old [] result run.new [] }
{
    known::strike_book_known_open_class(run, places, c)
}

// `C`.
#[unsafe(no_mangle)]
pub extern "C" fn strike_book_known_set_close(
    run: &mut [u32],
    places: &mut [u32],
    c: u32,
    p: u32,
) -> Reply
    requires { T (is_book run.old) }
    ensures { Answered (on c (call_c p)) run.old [] result run.new [] }
{
    known::strike_book_known_set_close(run, places, c, p)
}

// `H`.
#[unsafe(no_mangle)]
pub extern "C" fn strike_book_known_set_low_high(
    run: &mut [u32],
    places: &mut [u32],
    c: u32,
    low: u32,
    high: u32,
) -> Reply
    requires { T (is_book run.old) }
    ensures { Answered (on c (call_h low high)) run.old [] result run.new [] }
{
    known::strike_book_known_set_low_high(run, places, c, low, high)
}

// `V`.
#[unsafe(no_mangle)]
pub extern "C" fn strike_book_known_set_volume(
    run: &mut [u32],
    places: &mut [u32],
    c: u32,
    n: u32,
) -> Reply
    requires { T (is_book run.old) }
    ensures { Answered (on c (call_v n)) run.old [] result run.new [] }
{
    known::strike_book_known_set_volume(run, places, c, n)
}

// `D`.
#[unsafe(no_mangle)]
pub extern "C" fn strike_book_known_designate(
    run: &mut [u32],
    places: &mut [u32],
    c: u32,
    p: u32,
    d: u32,
) -> Reply
    requires { T (is_book run.old) }
    ensures { Answered (on c (call_d p d)) run.old [] result run.new [] }
{
    known::strike_book_known_designate(run, places, c, p, d)
}

// `L`.
#[unsafe(no_mangle)]
pub extern "C" fn strike_book_known_list_strike(
    run: &mut [u32],
    places: &mut [u32],
    c: u32,
    m: u32,
    h: u32,
) -> Reply
    requires { T (is_book run.old) }
    ensures { Answered (on c (call_l m h)) run.old [] result run.new [] }
{
    known::strike_book_known_list_strike(run, places, c, m, h)
}

// `J`.
#[unsafe(no_mangle)]
pub extern "C" fn strike_book_known_judge_strike(
    run: &[u32],
    places: &mut [u32],
    c: u32,
    m: u32,
    h: u32,
) -> Reply
    requires { T (is_book run.now) }
    ensures { Answered (on c (call_j m h)) run.now [] result run.now [] }
{
    known::strike_book_known_judge_strike(run, places, c, m, h)
}

// `X`.
#[unsafe(no_mangle)]
pub extern "C" fn strike_book_known_delist_strike(
    run: &mut [u32],
    places: &mut [u32],
    c: u32,
    m: u32,
    h: u32,
) -> Reply
    requires { T (is_book run.old) }
    ensures { Answered (on c (call_x m h)) run.old [] result run.new [] }
{
    known::strike_book_known_delist_strike(run, places, c, m, h)
}

// `I`.
#[unsafe(no_mangle)]
pub extern "C" fn strike_book_known_mark_strike(
    run: &mut [u32],
    places: &mut [u32],
    c: u32,
    m: u32,
    h: u32,
    a: u32,
    b: u32,
) -> Reply
    requires { T (is_book run.old) }
    ensures { Answered (on c (call_i m h a b)) run.old [] result run.new [] }
{
    known::strike_book_known_mark_strike(run, places, c, m, h, a, b)
}

// `R`.
#[unsafe(no_mangle)]
pub extern "C" fn strike_book_known_review_class(
    run: &mut [u32],
    places: &mut [u32],
    c: u32,
) -> Reply
    requires { T (is_book run.old) }
    ensures { Answered (on c call_r) run.old [] result run.new [] }
{
    known::strike_book_known_review_class(run, places, c)
}

// `A`.
#[unsafe(no_mangle)]
pub extern "C" fn strike_book_known_list_permitted(
    run: &[u32],
    second: &mut [u32],
    places: &mut [u32],
    c: u32,
    m: u32,
) -> Reply
    requires { T (is_book run.now) }
    ensures { Answered (on c (call_a m)) run.now second.old
        result run.now second.new }
{
    known::strike_book_known_list_permitted(run, second, places, c, m)
}

// A whole sheet.
#[unsafe(no_mangle)]
pub extern "C" fn strike_book_known_run_sheet(
    run: &mut [u32],
    second: &mut [u32],
    places: &mut [u32],
    sheet: &[u8],
    answers: &mut [u32],
) -> usize
    requires { T (is_book run.old) }
    ensures { SheetRun run.old second.old sheet.now answers.old
        result run.new second.new answers.new }
{
    known::strike_book_known_run_sheet(run, second, places, sheet, answers)
}
