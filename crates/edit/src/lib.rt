// Edits in place of the words of a book.
#![tactic(auto)]

ghost use Rattle.std.specs.Prelude.{◌≡◌, ◌-◌, ◌≤◌, ◌++◌, length, take};
ghost use Rattle.word.specs.Programs.{number_of};
ghost use Rattle.book.specs.Views.{class};
ghost use Rattle.book.specs.Changes.{class_opened, marks_set, new_series, strike_added, update};
ghost use Rattle.book.specs.Facts.{with_figures};
ghost use Rattle.book.specs.Layout.{facts_of, layout};
ghost use Rattle.book.specs.Places.{StrikeStands};
ghost use Rattle.book.specs.Uncounted.{uncounted};
ghost use Rattle.edit.specs.Insertion.{HasRoom, insert_words};
ghost use Rattle.edit.specs.EditsAsked.{Storable, Refigured, Redesignable, Markable, Openable, Insertable};

use place::head;
use place::own::counts_of;
use word::caps::own_class;
use word::class::ClassRecord;
use word::codec::{expiration_word, strike_word};
use word::field::field_of;
use word::kind::{STRIKE, key_of};
use word::programs::Program;
use word::strike::GROUND;
use word::{counter, figures};

// New words before the others, of which the last ones are lost. It is lent the part alone, and COUNT is a constant: so
// the others go by one move of memory.
fn push<const COUNT: usize>(s: &mut [u32], words: [u32; COUNT])
    requires { COUNT ≤ length s.old }
    ensures { s.new ≡ words.entry ++ take (length s.old - COUNT) s.old }
{
    let kept = s.len() - COUNT;
    s.copy_within(..kept, COUNT);
    s[..COUNT].copy_from_slice(&words);
}

// New words before the word at `at`, counted in the head.
fn insert<const COUNT: usize>(run: &mut [u32], at: usize, words: [u32; COUNT])
    requires { HasRoom COUNT at run.old }
    ensures { run.new ≡ insert_words at words.entry run.old }
{
    let month = head::current(run);
    let count = head::used(run);
    push(&mut run[at..count + COUNT], words);
    word::head::write(run, month, count + COUNT);
}

// The figures of the class whose word stands at `at`, with its designations.
pub fn store_figures(run: &mut [u32], at: usize, figures: ClassRecord)
    requires { Storable run.old at figures × Refigured run.old figures }
    ensures { let f = facts_of run.old in
        run.new
        ≡ layout (length run.old) (update (with_figures figures (class f figures.number)) f) }
{
    figures::write(run, at, figures);
}

// The same with another designation in a program, where it was `was`; the program's counter then counts it.
pub fn store_designation(
    run: &mut [u32],
    at: usize,
    figures: ClassRecord,
    program: Program,
    was: u32,
)
    requires { Redesignable run.old at figures (number_of program) was }
    ensures { let f = facts_of run.old in
        run.new
        ≡ layout (length run.old) (update (with_figures figures (class f figures.number)) f) }
{
    let others = counts_of(run, program).own - own_class(was);
    figures::write(run, at, figures);
    counter::set_own(
        run,
        program,
        others + own_class(figures.designation(program)),
    );
}

// The marks of the strike whose word stands at `at`.
pub fn store_marks(run: &mut [u32], at: usize, a: u32, b: u32)
    requires { Markable run.old at a b }
    ensures { let f = facts_of run.old in
        (x : StrikeStands f at)
        → run.new
        ≡ layout (length run.old) (update (marks_set x.month x.strike a b (class f x.class)) f) }
{
    let w = run[at];
    run[at] = strike_word(key_of(w, STRIKE), field_of(w, GROUND), a, b);
}

// A class as it is opened.
pub fn insert_class(run: &mut [u32], at: usize, c: u32)
    requires { Openable run.old at c }
    ensures { let f = facts_of run.old in
        run.new ≡ layout (length run.old) (class_opened c f) }
{
    insert(run, at, figures::words(ClassRecord::open(c)));
}

// The words of a strike with no marks, which the counters do not count yet. `stands` says whether its expiration has
// strikes already.
fn insert_words(run: &mut [u32], at: usize, stands: bool, m: u32, h: u32, ground: u32)
    requires { Insertable run.old at stands m h ground }
    ensures { let f = facts_of run.old in
        (x : Insertable run.old at stands m h ground)
        → run.new
        ≡ uncounted (length run.old) f
        (update (strike_added (new_series m h ground) (class f x.class)) f) }
{
    if stands {
        insert(run, at, [strike_word(h, ground, 0, 0)]);
        return;
    }
    insert(run, at, [expiration_word(m), strike_word(h, ground, 0, 0)]);
}

// A strike with no marks.
pub fn insert_strike(run: &mut [u32], at: usize, stands: bool, m: u32, h: u32, ground: u32)
    requires { Insertable run.old at stands m h ground }
    ensures { let f = facts_of run.old in
        (x : Insertable run.old at stands m h ground)
        → run.new
        ≡ layout (length run.old)
        (update (strike_added (new_series m h ground) (class f x.class)) f) }
{
    insert_words(run, at, stands, m, h, ground);
    counter::add_strikes(run, counter::strike_among(strike_word(h, ground, 0, 0)));
}
