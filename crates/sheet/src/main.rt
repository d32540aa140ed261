// The sheet program: reads a call sheet from standard input over a fresh book, and prints the reply to each line.
// Standard input comes in pieces, and a line may span pieces and have any length.
#![tactic(auto)]

ghost use Rattle.std.specs.Prelude.{◌≡◌, IfOk, OnErr, T, length};
ghost use Rattle.book.specs.Facts.{fresh};
ghost use Rattle.book.specs.Layout.{layout};
ghost use Rattle.book.specs.Books.{is_book};
ghost use Rattle.sheet_calls.specs.Pieces.{begun, last_ended};
ghost use Rattle.sheet.specs.declared.TheConstants.{BOOK_LENGTH, SECOND_LENGTH};
ghost use Rattle.sheet.specs.InputRead.{book_length, Left, AfterBytes, FrontRead, TurnTaken};
ghost use Rattle.sheet.specs.InputRead.{AllRead, SomeRead, SheetRead};

use scan::fresh;
use sheet_calls::piece::{end_line, read_piece};
use std::io;
use std::io::{Read, Write};
use text::line::{Line, Phase};

// The words of the book, and of the second run.
const BOOK_LENGTH: usize = 4096;

const SECOND_LENGTH: usize = 512;

// How many bytes are read at once, and how many are printed at once.
const BUFFER_LENGTH: usize = 65536;

// How many bytes were read, none at the end of the input, and the line that has not ended.
#[derive(Clone, Copy)]
struct Turn {
    count: usize,
    line: Line,
}

// The words of the book, the second run, and the bytes that are printed at once.
#[derive(Drop)]
struct Memory {
    run: [u32; BOOK_LENGTH],
    second: [u32; SECOND_LENGTH],
    out: [u8; BUFFER_LENGTH],
    ghost book: { T (is_book run) },
    // The types say it too, but of what a method leaves nothing is known but this.
    ghost lengths: { (length run ≡ BOOK_LENGTH) × (length second ≡ SECOND_LENGTH) },
}

impl Memory {
    // A fresh book.
    fn new() -> Memory
        ensures { result.run ≡ layout book_length fresh }
    {
        let mut run = [0; BOOK_LENGTH];
        let _ = fresh(&mut run);
        Memory {
            run,
            second: [0; SECOND_LENGTH],
            out: [0; BUFFER_LENGTH],
        }
    }

    // Reads a piece to its end and prints the replies to the lines that end in it. Answers the line that has not ended.
    // How far each turn reads, `read_piece` tells, so no `for` could count the turns.
    fn read_whole<W: Write>(
        &mut self,
        sink: &mut W,
        mut line: Line,
        piece: &[u8],
    ) -> io::Result<Line>
        ensures ok { IfOk result (AfterBytes self.old.run self.old.second line piece.now
            self.new.run self.new.second) }
        ensures err { OnErr result (FrontRead self.old.run self.old.second line piece.now
            self.new.run self.new.second) }
    {
        let mut rest = piece;
        while !rest.is_empty() {
            let progress = read_piece(&mut self.run, &mut self.second, line, rest, &mut self.out);
            sink.write_all(&self.out[..progress.put])?;
            line = progress.line;
            rest = &rest[progress.read..];
        }
        sink.flush()?;
        Ok(line)
    }

    // Reads the next piece of the input.
    fn take_turn<R: Read, W: Write>(
        &mut self,
        source: &mut R,
        sink: &mut W,
        line: Line,
        input: &mut [u8],
    ) -> io::Result<Turn>
        ensures ok { IfOk result (λ turn. TurnTaken self.old.run self.old.second line
            turn self.new.run self.new.second input.new) }
        ensures err { OnErr result (FrontRead self.old.run self.old.second line input.new
            self.new.run self.new.second) }
    {
        let count = source.read(input)?;
        let line = self.read_whole(sink, line, &input[..count])?;
        Ok(Turn { count, line })
    }

    // Reads the input to its end. Answers the last line, where it lacks its line end.
    // Nothing says that the input ends, so the turns are as many as a count can be.
    fn read_all<R: Read, W: Write>(
        &mut self,
        source: &mut R,
        sink: &mut W,
        input: &mut [u8],
    ) -> io::Result<Line>
        ensures ok { IfOk result (λ line. AllRead self.old.run self.old.second line self.new.run self.new.second) }
        ensures err { OnErr result (SomeRead self.old.run self.old.second self.new.run self.new.second) }
    {
        let mut line = Line::EMPTY;
        for _ in 0..u64::MAX {
            let turn = self.take_turn(source, sink, line, input)?;
            line = turn.line;
            if turn.count == 0 {
                break;
            }
        }
        Ok(line)
    }

    // Ends a last line that has begun, and prints the reply to it.
    // Its call is made before its reply is printed, so the runs are the same where the reply cannot be written.
    fn end_last<W: Write>(&mut self, sink: &mut W, line: Line) -> io::Result<()>
        ensures { Left (length self.old.run)
            (last_ended (length self.old.run) (length self.old.second) (begun self.old.run self.old.second line))
            self.new.run self.new.second }
    {
        if let Phase::Start = line.phase {
            return Ok(());
        }
        let put = end_line(&mut self.run, &mut self.second, line, &mut self.out, 0);
        sink.write_all(&self.out[..put])?;
        sink.flush()
    }

    // The whole sheet.
    // Where a read or a write fails, the bytes of the contract are those of the lines whose calls were made till then.
    fn run_sheet<R: Read, W: Write>(
        &mut self,
        source: &mut R,
        sink: &mut W,
        input: &mut [u8],
    ) -> io::Result<()>
        requires { self.old.run ≡ layout book_length fresh }
        ensures { SheetRead self.old.run self.old.second self.new.run self.new.second }
    {
        let line = self.read_all(source, sink, input)?;
        self.end_last(sink, line)
    }
}

fn main(rt: HostRuntime) -> io::Result<()> {
    let mut input = [0; BUFFER_LENGTH];
    Memory::new().run_sheet(&mut rt.stdin(), &mut rt.stdout(), &mut input)
}
