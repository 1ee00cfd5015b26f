// A cabinet of the tests: files in memory, of which one has so many comments before its bytes that no memory would
// hold them.

ghost use Rattle.std.specs.Prelude.{None, false};
ghost use Rattle.qna_edges.specs.Memory.{paper_of, stock_of};
ghost use Rattle.qna_edges.specs.MemCabinet.{Knows, shelves_of};

use qna_edges::{Cabinet, Failed, MemCabinet, MemSink, MemSource, Refused, Source};

/// A comment of 255 bytes, and a line feed.
const COMMENT: [u8; 256] =
    *b"###############################################################################################################################################################################################################################################################\n";

/// How many bytes of comments there are: one more than a source may have.
const REPEATED: usize = 1_073_741_825;

/// A source in memory with comments before its bytes.
#[derive(Drop)]
pub(crate) struct Repeating {
    comments: usize,
    source: MemSource,
}

impl Source for Repeating {
    /// It doesn't tell what is left.
    ghost stock = { λ s. record (stock_of s.source) { left = None } };

    fn read(&mut self, buf: &mut [u8]) -> Result<usize, Failed> {
        if self.comments == 0 {
            return self.source.read(buf);
        }
        let at = (REPEATED - self.comments.min(REPEATED)) % 256;
        let count = (256 - at).min(self.comments).min(buf.len());
        buf[..count].copy_from_slice(&COMMENT[at..at + count]);
        self.comments -= count;
        Ok(count)
    }
}

/// Files in memory; the one of this name begins with the comments.
#[derive(Drop)]
pub(crate) struct RepeatingCabinet<'a> {
    pub(crate) files: MemCabinet,
    pub(crate) repeats: &'a str,
}

impl<'a> Cabinet for RepeatingCabinet<'a> {
    type In = Repeating;

    type Out = MemSink;

    /// It doesn't tell its bytes.
    ghost shelves = { λ c. record (shelves_of c.files) { tells = false } };

    ghost knows = { λ c. Knows c.files };

    fn open(&mut self, name: &str) -> Result<Repeating, Refused> {
        let source = self.files.open(name)?;
        let comments = if name == self.repeats { REPEATED } else { 0 };
        Ok(Repeating { comments, source })
    }

    fn create(&mut self, name: &str) -> Result<MemSink, Refused> {
        self.files.create(name)
    }

    fn back_in(&mut self, source: Repeating) {
        self.files.back_in(source.source);
    }

    fn back_out(&mut self, sink: MemSink) {
        self.files.back_out(sink);
    }
}
