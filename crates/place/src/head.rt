// What the head of a book says.
#![tactic(auto, using(crate::proofs::Heads::book_long, crate::proofs::Heads::head_says))]

ghost use Rattle.std.specs.Prelude.{◌≡◌, T};
ghost use Rattle.book.specs.Layout.{facts_of, used};
ghost use Rattle.book.specs.Books.{is_book};

// The current month, document 01's `now`.
pub fn current(run: &[u32]) -> u32
    requires { T (is_book run.now) }
    ensures { result ≡ (facts_of run.now).now }
{
    word::head::month(run)
}

// How many words the book has, its head with them.
pub fn used(run: &[u32]) -> usize
    requires { T (is_book run.now) }
    ensures { result ≡ used (facts_of run.now) }
{
    word::head::used(run)
}
