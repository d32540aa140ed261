// A sheet that comes in pieces, as a program reads it: the calls of the lines that end in a piece are made, and their
// answers printed into a lent buffer.
ghost use Rattle.std.specs.Prelude.{◌≡◌, ◌+◌, ◌^◌, ◌<◌, ◌≤◌, T, length};
ghost use Rattle.std.proofs.lemmas.List.Edits.{sets};
ghost use Rattle.word.specs.Answers.{answer_value, strikes_listed};
ghost use Rattle.book.specs.Books.{is_book};
ghost use Rattle.text.specs.Reading.{end_of};
ghost use Rattle.sheet_calls.specs.LineCalls.{call_held};
ghost use Rattle.text.specs.Printing.{line_room};
ghost use Rattle.sheet_calls.specs.Lending.{LentOn};
ghost use Rattle.sheet_calls.specs.Pieces.{Ended, LinesBegin, LinesRead, Pieced, printed_text};

use crate::lent::Lent;
use crate::sheet::PLACES_REMEMBERED;
use text::ascii::LINE_FEED;
use text::line::{Line, read_line};
use text::print::{ANSWER_ROOM, STRIKE_ROOM, put_answer};
use word::answer::{Accepted, Answer, value_of};

// How far a piece has been read, the line that has not ended, and how many bytes were printed.
#[derive(Clone, Copy)]
pub struct PieceProgress {
    pub line: Line,
    pub read: usize,
    pub put: usize,
}

// How far the lines of a piece have been read, and how many bytes were printed.
#[derive(Clone, Copy)]
pub struct Lines {
    pub read: usize,
    pub put: usize,
}

// How many strikes a call has written to the second run, by its answer, whose value is a number of 32 bits.
fn strikes_listed(answer: Answer) -> usize
    ensures count { result ≡ strikes_listed answer }
    ensures fits { answer_value answer < 2 ^ 32 }
{
    let value = value_of(answer);
    match answer {
        Ok(Accepted::Listed(_)) => value as usize,
        _ => 0,
    }
}

// Prints an answer from `at` on, with its strikes, which stand at the front of the second run.
// `out` and `at` are two here and below, as the functions of `text::print` take them.
fn print_answer(out: &mut [u8], at: usize, answer: Answer, second: &[u32]) -> usize
    requires listed { strikes_listed answer ≤ length second.now }
    requires room { at + line_room (length second.now) ≤ length out.old }
    ensures value { result ≡ at + length (printed_text answer second.now) }
    ensures within { result ≤ length out.old }
    ensures out_after { out.new ≡ sets out.old at (printed_text answer second.now) }
{
    let count = strikes_listed(answer);
    put_answer(out, at, answer, &second[..count])
}

// The most bytes that the line of an answer takes, beside a second run of so many words.
fn line_room(words: usize) -> usize
    requires { line_room words < 2 ^ 64 }
    ensures { result ≡ line_room words }
{
    STRIKE_ROOM * words + ANSWER_ROOM
}

// Makes the call of a line that has ended, and prints its answer from `at` on.
fn print_line(lent: &mut Lent, line: Line, out: &mut [u8], at: usize) -> usize
    requires book { T (is_book lent.old.run.now) }
    requires room { at + line_room (length lent.old.second.now) ≤ length out.old }
    ensures ended { Ended (call_held line) lent.old.run.now lent.old.second.now out.old at
        result lent.new.run.now lent.new.second.now out.new }
    ensures lent { LentOn lent.old lent.new }
{
    let answer = lent.make_line(line);
    // Named first: tried `lent.second` itself, of which no word is known once it has been handed on to be read.
    let second = &mut *lent.second;
    print_answer(out, at, answer, second)
}

// Makes the call of a line that ends here, which is lent no places, and prints its answer from `at` on.
pub fn end_line(run: &mut [u32], second: &mut [u32], line: Line, out: &mut [u8], at: usize) -> usize
    requires { T (is_book run.old) × (at + line_room (length second.old) ≤ length out.old) }
    ensures { Ended (call_held (end_of line)) run.old second.old out.old at
        result run.new second.new out.new }
{
    let lent = &mut Lent {
        run,
        tested: true,
        second,
        places: &mut [],
    };
    print_line(lent, line.end(), out, at)
}

// Reads the lines that begin at `from` or later and end in the piece, as far as `out` has room for their answers.
// By their places: one that ends outside of the piece, or whose answer finds no room, is read again from its beginning.
fn read_lines(lent: &mut Lent, piece: &[u8], from: usize, out: &mut [u8], at: usize) -> Lines
    requires { LinesBegin lent.old.run.now lent.old.second.now piece.now from out.old at }
    ensures read { LinesRead lent.old.run.now lent.old.second.now piece.now from out.old at
        result lent.new.run.now lent.new.second.now out.new }
    ensures lent { LentOn lent.old lent.new }
{
    let mut put = at;
    let mut read = from;
    while read < piece.len() {
        let whole = read_line(piece, read);
        let end = whole.end;
        if (end == piece.len()) | (out.len() - put < line_room(lent.second.len())) {
            return Lines { read, put };
        }
        put = print_line(lent, whole.line, out, put);
        read = end + 1;
    }
    Lines { read, put }
}

// Reads a piece of a sheet, as far as `out` has room for one answer more, and prints the answers from the front of
// `out` on.
// Lines that begin and end in the piece are read at once, after the one that begins before it: so the loop goes by the
// place that is reached, and no `for` counts its turns.
pub fn read_piece(
    run: &mut [u32],
    second: &mut [u32],
    mut line: Line,
    piece: &[u8],
    out: &mut [u8],
) -> PieceProgress
    requires { T (is_book run.old) × (line_room (length second.old) ≤ length out.old) }
    ensures { Pieced run.old second.old piece.now out.old line
        result run.new second.new out.new }
{
    let mut put = 0;
    let mut read = 0;
    while read < piece.len() {
        let byte = piece[read];
        if byte == LINE_FEED {
            if out.len() - put < line_room(second.len()) {
                return PieceProgress { line, read, put };
            }
            put = end_line(run, second, line, out, put);
            line = Line::EMPTY;
            let lent = &mut Lent {
                run,
                tested: true,
                second,
                places: &mut [0; PLACES_REMEMBERED],
            };
            Lines { read, put } = read_lines(lent, piece, read + 1, out, put);
        } else {
            line = line.feed(byte);
            read += 1;
        }
    }
    PieceProgress { line, read, put }
}
