// The calls over any lent words. Each tests the run once and then makes the call as `class_call` or `strike_call` does
// on a book; a single call remembers no places. And what is read of the counters.
#![tactic(auto)]

ghost use Rattle.std.specs.Prelude.{[], false, ◌≡◌, MatchResult, T};
ghost use Rattle.word.specs.declared.answer.Refusal.TheVariants.{NotABook};
ghost use Rattle.book.specs.Books.{is_book};
ghost use Rattle.book.specs.Calls.{call_m, on, call_o, call_c, call_h, call_v, call_d, call_l, call_j, call_x, call_i, call_r, call_a};
ghost use Rattle.book.specs.CounterReads.{counter_read, counter_said};
ghost use Rattle.book.specs.Made.{Made};

use scan::is_book;
use word::answer::{Answer, Refusal};
use word::counter;
use word::counter::CounterAnswer;
use word::head::FIRST;
use word::programs::Program;
use word::strike::Marks;

// Refuses words that are no book.
fn require_book(run: &[u32]) -> Result<(), Refusal>
    ensures { MatchResult result (λ _. T (is_book run.now)) (λ why. (why ≡ NotABook) × (is_book run.now ≡ false)) }
{
    if is_book(run) {
        Ok(())
    } else {
        Err(Refusal::NotABook)
    }
}

// `M`: sets the current month, and removes the strikes of earlier months.
pub fn set_month(run: &mut [u32], m: u32) -> Answer
    ensures { Made (call_m m) run.old [] result run.new [] }
{
    require_book(run)?;
    class_call::set_month(run, m)
}

// `O`: opens a class.
pub fn open_class(run: &mut [u32], c: u32) -> Answer
    ensures { Made (on c call_o) run.old [] result run.new [] }
{
    require_book(run)?;
    class_call::open_class(run, c, &mut [])
}

// `C`: sets the close of a class, and the day's low and high to it.
pub fn set_close(run: &mut [u32], c: u32, p: u32) -> Answer
    ensures { Made (on c (call_c p)) run.old [] result run.new [] }
{
    require_book(run)?;
    class_call::set_close(run, c, p, &mut [])
}

// `H`: sets the day's low and high of a class.
pub fn set_low_high(run: &mut [u32], c: u32, low: u32, high: u32) -> Answer
    ensures { Made (on c (call_h low high)) run.old [] result run.new [] }
{
    require_book(run)?;
    class_call::set_low_high(run, c, low, high, &mut [])
}

// `V`: sets the volume of a class.
pub fn set_volume(run: &mut [u32], c: u32, n: u32) -> Answer
    ensures { Made (on c (call_v n)) run.old [] result run.new [] }
{
    require_book(run)?;
    class_call::set_volume(run, c, n, &mut [])
}

// `D`: gives the program p the designation d.
pub fn designate(run: &mut [u32], c: u32, p: u32, d: u32) -> Answer
    ensures { Made (on c (call_d p d)) run.old [] result run.new [] }
{
    require_book(run)?;
    class_call::designate(run, c, p, d, &mut [])
}

// `L`: adds the strike h of the month m.
pub fn list_strike(run: &mut [u32], c: u32, m: u32, h: u32) -> Answer
    ensures { Made (on c (call_l m h)) run.old [] result run.new [] }
{
    require_book(run)?;
    strike_call::list_strike(run, c, m, h, &mut [])
}

// `J`: judges the strike h of the month m, adding nothing.
pub fn judge_strike(run: &[u32], c: u32, m: u32, h: u32) -> Answer
    ensures { Made (on c (call_j m h)) run.now [] result run.now [] }
{
    require_book(run)?;
    strike_call::judge_strike(run, c, m, h, &mut [])
}

// `X`: delists the strike h of the month m.
pub fn delist_strike(run: &mut [u32], c: u32, m: u32, h: u32) -> Answer
    ensures { Made (on c (call_x m h)) run.old [] result run.new [] }
{
    require_book(run)?;
    strike_call::delist_strike(run, c, m, h, &mut [])
}

// `I`: sets the put mark a and the call mark b of the strike h of the month m.
pub fn mark_strike(run: &mut [u32], c: u32, m: u32, h: u32, a: u32, b: u32) -> Answer
    ensures { Made (on c (call_i m h a b)) run.old [] result run.new [] }
{
    require_book(run)?;
    strike_call::mark_strike(run, c, m, h, Marks { put: a, call: b }, &mut [])
}

// `R`: reviews a class, and answers how many strikes it removed.
pub fn review_class(run: &mut [u32], c: u32) -> Answer
    ensures { Made (on c call_r) run.old [] result run.new [] }
{
    require_book(run)?;
    class_call::review_class(run, c, &mut [])
}

// `A`: writes the strikes of the month m that `J` would accept to the second run, and answers how many there are.
pub fn list_permitted(run: &[u32], second: &mut [u32], c: u32, m: u32) -> Answer
    ensures { Made (on c (call_a m)) run.now second.old
        result run.now second.new }
{
    require_book(run)?;
    strike_call::list_permitted(run, second, c, m, &mut [])
}

// What a program counts over the whole book: its own classes, and the standing strikes on its grounds.
pub fn read_counter(run: &[u32], p: u32) -> CounterAnswer
    ensures { result ≡ counter_read p run.now }
{
    require_book(run)?;
    read_known_counter(run, p)
}

// The same of a run that is known to be a book, at a cost that does not grow with it. The run is not tested: of words
// that are no book it says what stands there.
pub fn read_known_counter(run: &[u32], p: u32) -> CounterAnswer
    ensures { (result ≡ counter_said p run.now)
        × (T (is_book run.now) → result ≡ counter_read p run.now) }
{
    if run.len() < FIRST {
        return Err(Refusal::NotABook);
    }
    let program = Program::try_from(p)?;
    Ok(counter::read(run, program))
}
