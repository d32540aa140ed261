// A whole sheet, read to its end over any lent words.
ghost use Rattle.std.specs.Prelude.{◌≡◌, T, length, slice_set};
ghost use Rattle.std.specs.Iterator.{at_most};
ghost use Rattle.book.specs.Books.{is_book};
ghost use Rattle.book.specs.Made.{Made};
ghost use Rattle.sheet_calls.specs.LineCalls.{call_held};
ghost use Rattle.sheet_calls.specs.Lending.{LentOn};
ghost use Rattle.sheet_calls.specs.Sheets.{SheetRun, FirstLine};

use crate::lent::Lent;
use dispatch::make_call;
use scan::is_book;
use text::line::{Line, NUMBERS_KEPT, read_line};
use word::answer::{Answer, number_of, value_of};

// How many places of classes the lines of a sheet remember.
pub const PLACES_REMEMBERED: usize = 1024;

// Makes the call of a line that has ended, and lends it places.
pub fn make_line(run: &mut [u32], second: &mut [u32], places: &mut [u32], line: Line) -> Answer
    requires { T (is_book run.old) }
    ensures { Made (call_held line)
        run.old second.old result run.new second.new }
{
    let count = line.count.min(NUMBERS_KEPT);
    let numbers = &line.numbers[..count];
    make_call(run, second, places, u32::from(line.letter), numbers)
}

// The lines of the bytes that are left of a sheet, each read when it is asked for.
#[derive(Drop)]
struct LinesLeft<'a>(&'a [u8]);

impl Iterator for LinesLeft<'_> {
    type Item = Line;

    ghost next_gives = { FirstLine };

    ghost remaining = { λ left. at_most (length left.0.now) };

    fn next(&mut self) -> Option<Line> {
        let left = self.0;
        if left.is_empty() {
            return None;
        }
        let whole = read_line(left, 0);
        let next = left.len().min(whole.end + 1);
        self.0 = &left[next..];
        Some(whole.line)
    }
}

// Writes a number where there is a place for it.
// By its index: tried `get_mut`, whose contract does not say what the slice holds after the write.
fn put(answers: &mut [u32], at: usize, number: u32)
    ensures { answers.new ≡ slice_set answers.old at number }
{
    if at < answers.len() {
        answers[at] = number;
    }
}

// Makes the call of each line in turn, and answers how many lines there are. The number and the value of each answer
// are written to `answers`, two words a line, as far as it has places.
fn answer_lines(lent: &mut Lent, sheet: &[u8], answers: &mut [u32]) -> usize
    ensures run { SheetRun lent.old.run.now lent.old.second.now sheet.now answers.old
        result lent.new.run.now lent.new.second.now answers.new }
    ensures lent { LentOn lent.old lent.new }
{
    let mut lines = 0;
    for line in LinesLeft(sheet) {
        let answer = lent.make_line(line);
        put(answers, 2 * lines, number_of(answer));
        put(answers, 2 * lines + 1, value_of(answer));
        lines += 1;
    }
    lines
}

// Reads a sheet to its end, makes the call of each line in turn, and answers how many lines there are: over any words.
pub fn run_sheet(run: &mut [u32], second: &mut [u32], sheet: &[u8], answers: &mut [u32]) -> usize
    ensures { SheetRun run.old second.old sheet.now answers.old
        result run.new second.new answers.new }
{
    let tested = is_book(run);
    let lent = &mut Lent {
        run,
        tested,
        second,
        places: &mut [0; PLACES_REMEMBERED],
    };
    answer_lines(lent, sheet, answers)
}

// The same over a run that is known to be a book, with places lent.
pub fn run_known_sheet(
    run: &mut [u32],
    second: &mut [u32],
    places: &mut [u32],
    sheet: &[u8],
    answers: &mut [u32],
) -> usize
    requires { T (is_book run.old) }
    ensures { SheetRun run.old second.old sheet.now answers.old
        result run.new second.new answers.new }
{
    let lent = &mut Lent {
        run,
        tested: true,
        second,
        places,
    };
    answer_lines(lent, sheet, answers)
}
