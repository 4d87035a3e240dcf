// A script's lines, each run as it comes. No contract here says what is printed.
ghost use Rattle.std.specs.Prelude.{◌≡◌};
ghost use Rattle.replayer.specs.declared.runs.Stop.TheVariants as stop;

use crate::buffers::Buffers;
use crate::prints::{print, print_complaint};
use crate::scripts::{Came, Chunk, Text};
use desk::{Desk, fresh, next_line};
use lines::{Does, fill, line_of};
use script::{Fault, crc_table, zeros};
use std::io::{self, Read, Write};

// Nothing says that the input ends, so the turns go up to a number that no run reaches.
const TURNS: usize = 1000000000000;

// Why a run ends before its script does.
#[derive(Drop)]
enum Stop {
    Wrong(Fault),
    Failed(io::Error),
}

impl From<Fault> for Stop {
    ghost from_gives = { λ f s. s ≡ stop.Wrong f };

    fn from(f: Fault) -> Stop {
        Stop::Wrong(f)
    }
}

impl From<io::Error> for Stop {
    ghost from_gives = { λ e s. s ≡ stop.Failed e };

    fn from(e: io::Error) -> Stop {
        Stop::Failed(e)
    }
}

#[derive(Drop)]
pub struct Run {
    desk: Desk,
    // The bytes that a line gives.
    data: [u8; 131072],
    // What `crc` goes by.
    sums: [usize; 256],
}

impl Run {
    pub(crate) fn new() -> Run {
        Run {
            desk: fresh(),
            data: zeros(),
            sums: crc_table(),
        }
    }

    // What the line does, and how many bytes it gives.
    fn taken(&mut self, text: Result<&[u8], Fault>) -> Result<(Does, usize), Fault> {
        let text = text?;
        let line = line_of(text, self.desk.cursor)?;
        let n = fill(line.given, text, &mut self.data)?;
        Ok((line.does, n))
    }

    // The line is run, and prints.
    fn run_line<W: Write>(
        &mut self,
        buffers: &mut Buffers,
        to: &mut W,
        text: &Text,
    ) -> Result<(), Stop> {
        self.desk = next_line(self.desk);
        let text = text.read();
        let taken = self.taken(text);
        let n = taken.map_or(0, |(_, n)| n).min(self.data.len());
        let does = taken.map(|(does, _)| does);
        let turn = buffers.carry_out(self.desk, does, &self.data, n)?;
        self.desk = turn.desk;
        // Only of a line that can't be taken is there no text.
        let text = text.unwrap_or(&[]);
        print(to, turn.said, text, self.desk.sizes, buffers, &self.sums)?;
        Ok(())
    }

    fn run_lines<R: Read, W: Write>(
        &mut self,
        buffers: &mut Buffers,
        from: &mut R,
        to: &mut W,
    ) -> Result<(), Stop> {
        let mut chunk = Chunk::new();
        let mut text = Text::new();
        for _ in 0..TURNS {
            chunk.refill(from)?;
            let n = text.take(chunk.rest());
            chunk.pass(n);
            match text.came {
                Came::Part => {}
                Came::Whole => self.run_line(buffers, to, &text)?,
                Came::Last => return self.run_line(buffers, to, &text),
            }
        }
        Ok(())
    }

    // A line that can't be taken ends the run, and says so.
    pub(crate) fn run<R: Read, W: Write>(
        &mut self,
        buffers: &mut Buffers,
        from: &mut R,
        to: &mut W,
    ) -> io::Result<()> {
        match self.run_lines(buffers, from, to) {
            Ok(()) => Ok(()),
            Err(Stop::Wrong(f)) => print_complaint(to, self.desk.line, f),
            Err(Stop::Failed(e)) => Err(e),
        }
    }
}
