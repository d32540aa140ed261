// Expiry: in each class the months before the new one stand first, so that what stays moves down in stretches. The
// strikes of each stretch that goes are counted as it is passed.
ghost use Rattle.std.specs.Prelude.{◌≡◌, ◌+◌, ◌-◌, ◌≤◌, T, length};
ghost use Rattle.word.specs.Limits.{last_month};
ghost use Rattle.book.specs.Layout.{layout, facts_of};
ghost use Rattle.book.specs.Books.{is_book};
ghost use Rattle.book.specs.Changes.{month_set};
ghost use Rattle.removal.specs.Expiry.{Movable, MovedTo};

use place::head;
use place::search::first;
use word::counter::{NO_STRIKES, strikes_among, take_strikes, together};
use word::figures;
use word::head::FIRST;
use word::kind::{CLASS, EXPIRATION};

// Moves the words from `from` to `end` down to `to`, and returns the index after them. Words that stand there stay
// untouched: in a book of which nothing goes, no word moves.
fn move_to(run: &mut [u32], to: usize, from: usize, end: usize) -> usize
    requires { Movable to from end run.old }
    ensures { (result ≡ to + (end - from)) × MovedTo to from end run.old run.new }
{
    if to < from {
        run.copy_within(from..end, to);
    }
    to + (end - from)
}

// `M`: the months before m go, and m is the month.
pub fn expire(run: &mut [u32], m: u32)
    requires { T (is_book run.old) × (m ≤ last_month) }
    ensures { run.new ≡ layout (length run.old) (month_set m (facts_of run.old)) }
{
    let end = head::used(run);
    let mut written = FIRST;
    let mut kept = FIRST;
    let mut at = FIRST;
    let mut gone = NO_STRIKES;
    // A `while`: the next class is found by search, so that no range and no iterator tells its index.
    while at < end {
        let start = at + figures::LENGTH;
        let stays = start + first(&run[start..end], EXPIRATION, m);
        if start < stays {
            // Named before it is kept: tried without, an array that a call returns into a kept variable gets no proof.
            let more = together(gone, strikes_among(&run[start..stays]));
            gone = more;
            written = move_to(run, written, kept, start);
            kept = stays;
        }
        at = stays + first(&run[stays..end], CLASS, 0);
    }
    written = move_to(run, written, kept, end);
    run[written..end].fill(0);
    word::head::write(run, m, written);
    take_strikes(run, gone);
}
