// Whole lists of calls from a fresh book, and two of them compared.
#![tactic(auto)]

ghost use Rattle.std.specs.Prelude.{T};
ghost use Rattle.book.specs.Books.{is_book};
ghost use Rattle.history.specs.Records.{call_of_record};
ghost use Rattle.history.specs.ExecutedLists.{Lent, MadeInTurn, Ran};
ghost use Rattle.history.specs.Comparisons.{Compared};

use dispatch::make_call;
use scan::fresh;
use word::answer::Answer;

// Whether two lists of calls leave the same book. The contract of `compare_lists` names these three, none with a value.
#[derive(Clone, Copy)]
pub enum Comparison {
    Equal,
    Different,
    BadLength,
}

// How many words a record of a list has.
const RECORD_LENGTH: usize = 8;

// Makes the call of a record: a letter, how many numbers it has, the numbers, and the length of its second run. It is
// lent as many words of the pool as it asks for, or all, and no places.
fn make_record(run: &mut [u32], pool: &mut [u32], words: &[u32; RECORD_LENGTH]) -> Answer
    requires { T (is_book run.old) }
    ensures { Lent (call_of_record words.now) run.old pool.old
        result run.new pool.new }
{
    let [letter, count, a, b, c, d, e, room] = *words;
    let numbers = [a, b, c, d, e];
    let count = numbers.len().min(count as usize);
    let room = pool.len().min(room as usize);
    make_call(run, &mut pool[..room], &mut [], letter, &numbers[..count])
}

// Makes the calls of a list of records in turn, on a run that is a book.
fn make_calls(run: &mut [u32], pool: &mut [u32], calls: &[u32])
    requires { T (is_book run.old) }
    ensures { MadeInTurn run.old pool.old calls.now
        run.new pool.new }
{
    let (records, _) = calls.as_chunks();
    for record in records {
        let _ = make_record(run, pool, record);
    }
}

// Makes a fresh book of the run and then the calls of a list in turn: every word that it leaves follows from the run's
// length and the list. A run of a bad length is refused and keeps its words.
pub fn run_calls(run: &mut [u32], pool: &mut [u32], calls: &[u32]) -> Answer
    ensures { Ran run.old pool.old calls.now
        result run.new pool.new }
{
    let begun = fresh(run)?;
    make_calls(run, pool, calls);
    Ok(begun)
}

// Runs one list of calls on each of two runs of one length, and compares the books that they leave.
// Runs of two lengths, or of a bad one, are refused and keep their words.
pub fn compare_lists(
    left: &mut [u32],
    right: &mut [u32],
    pool: &mut [u32],
    calls: &[u32],
    others: &[u32],
) -> Comparison
    ensures { Compared left.old right.old pool.old calls.now
        others.now result left.new right.new pool.new }
{
    if left.len() != right.len() {
        return Comparison::BadLength;
    }
    if run_calls(left, pool, calls).is_err() {
        return Comparison::BadLength;
    }
    // No other length is refused.
    let _ = run_calls(right, pool, others);
    if &*left == &*right {
        return Comparison::Equal;
    }
    Comparison::Different
}
