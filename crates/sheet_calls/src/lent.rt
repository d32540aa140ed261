// The call of one line, made with what a sheet is lent.
ghost use Rattle.std.specs.Prelude.{◌≡◌};
ghost use Rattle.book.specs.Books.{is_book};

use crate::sheet::make_line;
use text::line::Line;
use word::answer::{Answer, Refusal};

// What the calls of a sheet are lent.
#[derive(Drop)]
pub(crate) struct Lent<'a> {
    pub(crate) run: &'a mut [u32],
    // Whether the run is a book.
    pub(crate) tested: bool,
    pub(crate) second: &'a mut [u32],
    // Where calls remember the places of classes that they found.
    pub(crate) places: &'a mut [u32],
    ghost is_tested: { tested ≡ is_book run.now },
}

impl Lent<'_> {
    ghost use Rattle.book.specs.Made.{Made};
    ghost use Rattle.sheet_calls.specs.LineCalls.{call_held};
    ghost use Rattle.sheet_calls.specs.Lending.{LentOn};

    // Makes the call of a line that has ended.
    pub(crate) fn make_line(&mut self, line: Line) -> Answer
        ensures made { Made (call_held line)
            self.old.run.now self.old.second.now result self.new.run.now self.new.second.now }
        ensures lent { LentOn self.old self.new }
    {
        if !self.tested {
            return Err(Refusal::NotABook);
        }
        make_line(self.run, self.second, self.places, line)
    }
}
