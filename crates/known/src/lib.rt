// The calls over a run that is known to be a book, as programs in C and Rust call them: no word is tested. `places` is
// what calls remember of where classes stand: any numbers will do, and any count of them, none too. `known_c` gives C
// these names. include/strikebook.h says what a caller owes.
#![tactic(auto)]

ghost use Rattle.std.specs.Prelude.{[], T};
ghost use Rattle.book.specs.Books.{is_book};
ghost use Rattle.book.specs.Calls.{call_m, on, call_o, call_c, call_h, call_v, call_d, call_l, call_j, call_x, call_i, call_r, call_a};
ghost use Rattle.sheet_calls.specs.Sheets.{SheetRun};
ghost use Rattle.export.specs.CallReplies.{Answered};

use export::Reply;
use word::strike::Marks;

// `M`.
pub fn strike_book_known_set_month(run: &mut [u32], m: u32) -> Reply
    requires { T (is_book run.old) }
    ensures { Answered (call_m m) run.old [] result run.new [] }
{
    Reply::from(class_call::set_month(run, m))
}

// `O`.
pub fn strike_book_known_open_class(run: &mut [u32], places: &mut [u32], c: u32) -> Reply
    requires { T (is_book run.old) }
    ensures { Answered (on c call_o) run.old [] result run.new [] }
{
    Reply::from(class_call::open_class(run, c, places))
}

// `C`.
pub fn strike_book_known_set_close(run: &mut [u32], places: &mut [u32], c: u32, p: u32) -> Reply
    requires { T (is_book run.old) }
    ensures { Answered (on c (call_c p)) run.old [] result run.new [] }
{
    Reply::from(class_call::set_close(run, c, p, places))
}

// `H`.
pub fn strike_book_known_set_low_high(
    run: &mut [u32],
    places: &mut [u32],
    c: u32,
    low: u32,
    high: u32,
) -> Reply
    requires { T (is_book run.old) }
    ensures { Answered (on c (call_h low high)) run.old [] result run.new [] }
{
    Reply::from(class_call::set_low_high(run, c, low, high, places))
}

// `V`.
pub fn strike_book_known_set_volume(run: &mut [u32], places: &mut [u32], c: u32, n: u32) -> Reply
    requires { T (is_book run.old) }
    ensures { Answered (on c (call_v n)) run.old [] result run.new [] }
{
    Reply::from(class_call::set_volume(run, c, n, places))
}

// `D`.
pub fn strike_book_known_designate(
    run: &mut [u32],
    places: &mut [u32],
    c: u32,
    p: u32,
    d: u32,
) -> Reply
    requires { T (is_book run.old) }
    ensures { Answered (on c (call_d p d)) run.old [] result run.new [] }
{
    Reply::from(class_call::designate(run, c, p, d, places))
}

// `L`.
pub fn strike_book_known_list_strike(
    run: &mut [u32],
    places: &mut [u32],
    c: u32,
    m: u32,
    h: u32,
) -> Reply
    requires { T (is_book run.old) }
    ensures { Answered (on c (call_l m h)) run.old [] result run.new [] }
{
    Reply::from(strike_call::list_strike(run, c, m, h, places))
}

// `J`.
pub fn strike_book_known_judge_strike(
    run: &[u32],
    places: &mut [u32],
    c: u32,
    m: u32,
    h: u32,
) -> Reply
    requires { T (is_book run.now) }
    ensures { Answered (on c (call_j m h)) run.now [] result run.now [] }
{
    Reply::from(strike_call::judge_strike(run, c, m, h, places))
}

// `X`.
pub fn strike_book_known_delist_strike(
    run: &mut [u32],
    places: &mut [u32],
    c: u32,
    m: u32,
    h: u32,
) -> Reply
    requires { T (is_book run.old) }
    ensures { Answered (on c (call_x m h)) run.old [] result run.new [] }
{
    Reply::from(strike_call::delist_strike(run, c, m, h, places))
}

// `I`.
pub fn strike_book_known_mark_strike(
    run: &mut [u32],
    places: &mut [u32],
    c: u32,
    m: u32,
    h: u32,
    a: u32,
    b: u32,
) -> Reply
    requires { T (is_book run.old) }
    ensures { Answered (on c (call_i m h a b)) run.old [] result run.new [] }
{
    Reply::from(strike_call::mark_strike(run, c, m, h, Marks { put: a, call: b }, places))
}

// `R`.
pub fn strike_book_known_review_class(run: &mut [u32], places: &mut [u32], c: u32) -> Reply
    requires { T (is_book run.old) }
    ensures { Answered (on c call_r) run.old [] result run.new [] }
{
    Reply::from(class_call::review_class(run, c, places))
}

// `A`.
pub fn strike_book_known_list_permitted(
    run: &[u32],
    second: &mut [u32],
    places: &mut [u32],
    c: u32,
    m: u32,
) -> Reply
    requires { T (is_book run.now) }
    ensures { Answered (on c (call_a m)) run.now second.old
        result run.now second.new }
{
    Reply::from(strike_call::list_permitted(run, second, c, m, places))
}

// A whole sheet.
pub fn strike_book_known_run_sheet(
    run: &mut [u32],
    second: &mut [u32],
    places: &mut [u32],
    sheet: &[u8],
    answers: &mut [u32],
) -> usize
    requires { T (is_book run.old) }
    ensures { SheetRun run.old second.old sheet.now answers.old
        result run.new second.new answers.new }
{
    sheet_calls::sheet::run_known_sheet(run, second, places, sheet, answers)
}
