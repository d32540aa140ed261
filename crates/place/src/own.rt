// How many classes are ours in each program, and how many strikes stand on its grounds, as its counter says.
ghost use Rattle.std.specs.Prelude.{◌≡◌, T};
ghost use Rattle.word.specs.Programs.{is_program, number_of};
ghost use Rattle.book.specs.Facts.{owned};
ghost use Rattle.book.specs.Layout.{facts_of};
ghost use Rattle.book.specs.Books.{is_book};
ghost use Rattle.book.specs.CounterReads.{counts_of};

use word::caps::OwnCount;
use word::counter;
use word::counter::Counts;
use word::programs::Program;

// What the counter of a program says.
#[tactic(auto, using(crate::proofs::Heads::book_long, book::proofs::Recounted::book_counts))]
pub fn counts_of(run: &[u32], program: Program) -> Counts
    requires { T (is_book run.now) }
    ensures { result ≡ counts_of (number_of program) (facts_of run.now) }
{
    counter::read(run, program)
}

// How many classes are ours in the program of the number PROGRAM, as a count of that program.
pub fn own_count<const PROGRAM: u32>(run: &[u32]) -> OwnCount<PROGRAM>
    requires { T (is_book run.now) × T (is_program PROGRAM) }
    ensures { result.0 ≡ owned PROGRAM (facts_of run.now).classes }
{
    OwnCount::of(counts_of(run, OwnCount::<PROGRAM>::program()).own)
}
