// The review of a class from the top, in steps, in place.
#![tactic(auto)]

ghost use Rattle.std.specs.Prelude.{◌≡◌, length};
ghost use Rattle.book.specs.Layout.{layout, facts_of};
ghost use Rattle.book.specs.Views.{class};
ghost use Rattle.book.specs.Changes.{class_reviewed, reviewed_count, update};
ghost use Rattle.review.specs.ReviewSteps.{after_steps, gone_count};
ghost use Rattle.review.specs.ReviewsAsked.{Reviewable};

use crate::steps::review_steps;
use gap::close_gap;
use place::head;
use word::counter::take_strikes;

pub mod marks;
pub mod steps;

// The first n steps of the review of the class whose series have the words from `from` to `to`, or all of them. Then
// the words after the free ones move down, and the counter of the $1 program, to which both grounds belong that a
// review removes, counts those less that are removed: so that the run is a book again. Returns how many these are.
fn review_highest(run: &mut [u32], from: usize, to: usize, close: u32, n: usize) -> usize
    requires { Reviewable run.old from to close }
    ensures { let f = facts_of run.old in
        (x : Reviewable run.old from to close)
        → (result ≡ gone_count n (class f x.number))
        × (run.new ≡ layout (length run.old) (update (after_steps n (class f x.number)) f)) }
{
    let end = head::used(run);
    let month = head::current(run);
    let k = review_steps(&mut run[from..to], close, n);
    let at = from + k.read;
    let free = k.written - k.read;
    close_gap(&mut run[at..end], free);
    word::head::write(run, month, end - free);
    let removed = free - k.emptied;
    let dollars = removed as u32;
    take_strikes(run, [dollars, 0, 0]);
    removed
}

// `R`: of the class whose series have the words from `from` to `to`, those go that its review at its close removes.
// Returns how many.
pub fn review_all(run: &mut [u32], from: usize, to: usize, close: u32) -> usize
    requires { Reviewable run.old from to close }
    ensures { let f = facts_of run.old in
        (x : Reviewable run.old from to close)
        → (result ≡ reviewed_count (class f x.number))
        × (run.new ≡ layout (length run.old) (update (class_reviewed (class f x.number)) f)) }
{
    review_highest(run, from, to, close, to - from)
}
