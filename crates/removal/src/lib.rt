// Delisting by the place of the strike. Expiry has a module of its own.
#![tactic(auto)]

ghost use Rattle.std.specs.Prelude.{◌≡◌, length};
ghost use Rattle.book.specs.Layout.{layout, facts_of};
ghost use Rattle.book.specs.Uncounted.{uncounted};
ghost use Rattle.book.specs.Views.{class};
ghost use Rattle.book.specs.Changes.{strike_removed, update};
ghost use Rattle.removal.specs.RemovalsAsked.{Delistable};
ghost use Rattle.removal.specs.Removal.{Removable, remove_words};

use gap::close_fixed_gap;
use place::head;
use word::counter;

pub mod expiry;

// COUNT words from `at` on are taken out, and the head counts them no longer.
fn remove<const COUNT: usize>(run: &mut [u32], at: usize)
    requires { Removable COUNT at run.old }
    ensures { run.new ≡ remove_words COUNT at run.old }
{
    let month = head::current(run);
    let end = head::used(run);
    close_fixed_gap::<COUNT>(&mut run[at..end]);
    word::head::write(run, month, end - COUNT);
}

// The word of a strike at `at` is taken out, which the counters still count; with it its expiration word, where it is
// `alone` behind that.
fn take_out(run: &mut [u32], at: usize, alone: bool)
    requires { Delistable run.old at alone }
    ensures { let f = facts_of run.old in
        (x : Delistable run.old at alone)
        → run.new
        ≡ uncounted (length run.old) f
        (update (strike_removed x.month x.strike (class f x.class)) f) }
{
    if alone {
        remove::<2>(run, at - 1);
    } else {
        remove::<1>(run, at);
    }
}

// `X`: the strike whose word stands at `at` goes; with it its expiration word, where it is `alone` behind that.
pub fn delist(run: &mut [u32], at: usize, alone: bool)
    requires { Delistable run.old at alone }
    ensures { let f = facts_of run.old in
        (x : Delistable run.old at alone)
        → run.new
        ≡ layout (length run.old) (update (strike_removed x.month x.strike (class f x.class)) f) }
{
    let gone = counter::strike_among(run[at]);
    take_out(run, at, alone);
    counter::take_strikes(run, gone);
}
