// Standard input, line by line.
use script::field::end_of;
use script::line::is_skipped;
use script::text::put;
use std::io;
use std::io::Read;

// What one turn of reading comes to: a line is whole, more of it is to be read, or the input has ended.
#[derive(Clone, Copy)]
pub(crate) enum Turn {
    Whole,
    Part,
    End,
}

// `from` to `to` of the chunk is still to be read. The first `length` bytes of the line are those of line number `number` if it is whole,
// else of the next one, of which a part is there if `begun`; there was no room for more if `long`. The counts stand beside rooms of a fixed size: nothing here allocates.
#[derive(Drop)]
pub(crate) struct Lines {
    chunk: [u8; 65536],
    from: usize,
    to: usize,
    line: [u8; 300000],
    length: usize,
    long: bool,
    number: usize,
    begun: bool,
    ended: bool,
}

impl Lines {
    #[inline(always)]
    pub(crate) fn new() -> Lines {
        Lines {
            chunk: [0; 65536],
            from: 0,
            to: 0,
            line: [0; 300000],
            length: 0,
            long: false,
            number: 0,
            begun: false,
            ended: false,
        }
    }

    // The line is whole.
    fn whole(&mut self) -> Turn {
        self.begun = false;
        self.number = self.number.saturating_add(1);
        Turn::Whole
    }

    // After a whole line, the next one starts anew.
    fn begin(&mut self) {
        if !self.begun {
            self.begun = true;
            self.length = 0;
            self.long = false;
        }
    }

    // Takes the chunk's text up to the line's end, or all of it.
    fn take(&mut self) -> Turn {
        self.begin();
        let text = self.chunk.get(self.from..self.to).unwrap_or_default();
        let n = end_of(text, b'\n');
        let end = put(&mut self.line, self.length, &text[..n]);
        self.long = self.long || end == self.length && n > 0;
        self.length = end;
        if n == text.len() {
            self.from = self.to;
            return Turn::Part;
        }
        self.from += n + 1;
        self.whole()
    }

    // The input has no more: a last line without a line feed is whole.
    fn end(&mut self) -> Turn {
        self.ended = true;
        if self.begun { self.whole() } else { Turn::End }
    }

    // One turn: a line's bytes are taken from the chunk, or the chunk is filled again.
    pub(crate) fn turn<R: Read>(&mut self, input: &mut R) -> io::Result<Turn> {
        if self.ended {
            return Ok(Turn::End);
        }
        if self.from < self.to {
            return Ok(self.take());
        }
        self.to = input.read(&mut self.chunk)?;
        self.from = 0;
        Ok(if self.to > 0 { Turn::Part } else { self.end() })
    }

    // The number of the line that is whole.
    pub(crate) fn number(&self) -> usize {
        self.number
    }

    // Its text. One that is too long can't be read, but a comment is skipped like any other.
    pub(crate) fn text(&self) -> Option<&[u8]> {
        let text = self.line.get(..self.length).unwrap_or_default();
        let readable = !self.long || is_skipped(text);
        readable.then_some(text)
    }
}
