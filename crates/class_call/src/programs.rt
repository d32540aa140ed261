// What a new designation asks, by its program.
ghost use Rattle.std.specs.Prelude.{[], ◌∷◌, ◌++◌, ◌≡◌, Ok, T};
ghost use Rattle.word.specs.declared.answer.Accepted.TheVariants.{Done};
ghost use Rattle.word.specs.Programs.{number_of};
ghost use Rattle.book.specs.Books.{is_book};
ghost use Rattle.book.specs.Calls.{capping, claiming, first_or, is_cap_reached};
ghost use Rattle.book.specs.Layout.{facts_of};

use place::own::own_count;
use word::answer::{Accepted, Answer, Refusal};
use word::class::ClassRecord;
use word::programs::{DOLLAR, HALF, Program, TWO_FIFTY};

// Whether the program's cap is reached, by its own counter.
fn is_cap_reached(run: &[u32], program: Program) -> bool
    requires { T (is_book run.now) }
    ensures { result ≡ is_cap_reached (number_of program) (facts_of run.now) }
{
    match program {
        Program::Dollar => own_count::<DOLLAR>(run).is_full(),
        Program::Half => own_count::<HALF>(run).is_full(),
        Program::TwoFifty => own_count::<TWO_FIFTY>(run).is_full(),
    }
}

// What a designation draws: nothing unless it is newly 1, and then 8, 9 or 10.
pub fn claim_of(run: &[u32], figures: ClassRecord, program: Program, d: u32) -> Answer
    requires { T (is_book run.now) }
    ensures { let p = number_of program in
        result ≡ first_or (Ok Done) (claiming p d figures ++ (capping p d figures (facts_of run.now) ∷ [])) }
{
    if !((d == 1) & (figures.designation(program) != 1)) {
        return Ok(Accepted::Done);
    }
    if program.needs_close() & (figures.close == 0) {
        return Err(Refusal::NoClose);
    }
    if !program.is_qualified(figures) {
        return Err(Refusal::NotQualified);
    }
    if is_cap_reached(run, program) {
        return Err(Refusal::CapReached);
    }
    Ok(Accepted::Done)
}
