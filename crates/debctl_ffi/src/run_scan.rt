//! Counts the paragraphs of a file that have ended, while its bytes arrive (Debian Policy 5.1).

use deb_base::{PARAGRAPH_LIMIT, is_only_blanks};
use memchr::memchr;

/// What is known of the lines after the last paragraph that has ended.
#[derive(Clone, Copy)]
pub(crate) struct RunScan {
    /// How many bytes the line has that hasn't ended.
    line: usize,
    /// Whether all of them are spaces and tabs.
    blank: bool,
    /// How many bytes the lines of the paragraph have, with their newlines.
    run: usize,
}

impl RunScan {
    /// Nothing has arrived.
    pub(crate) fn new() -> RunScan {
        RunScan {
            line: 0,
            blank: true,
            run: 0,
        }
    }

    /// Goes on through bytes that have arrived, and returns how many paragraphs end in them: with
    /// the newline of a blank line, or of a line with which they are too long.
    pub(crate) fn count(&mut self, text: &[u8]) -> u64 {
        let mut runs: u64 = 0;
        let mut rest = text;
        while let Some(length) = memchr(b'\n', rest) {
            self.extend(&rest[..length]);
            if self.end_line() {
                runs = runs.saturating_add(1);
            }
            rest = &rest[length..][1..];
        }
        self.extend(rest);
        runs
    }

    /// Whether no paragraph has begun since the last one that has ended, as far as is known.
    pub(crate) fn is_between(&self) -> bool {
        self.run == 0 && self.blank
    }

    /// The line goes on with these bytes.
    fn extend(&mut self, bytes: &[u8]) {
        self.line = self.line.saturating_add(bytes.len());
        self.blank = self.blank && is_only_blanks(bytes);
    }

    /// The line ends. Returns whether a paragraph ends with it.
    fn end_line(&mut self) -> bool {
        let run = self.run;
        let is_blank = self.blank && self.line < PARAGRAPH_LIMIT;
        let longer = run.saturating_add(self.line).saturating_add(1);
        self.line = 0;
        self.blank = true;
        if is_blank {
            self.run = 0;
            return run > 0;
        }
        self.run = longer;
        longer > PARAGRAPH_LIMIT
    }
}

/// How many paragraphs end in the last byte that was fed before, and in a piece without its last
/// byte.
pub(crate) fn ended_runs(scan: &mut RunScan, last: &[u8], text: &[u8]) -> u64 {
    let before = scan.count(last);
    let within = scan.count(&text[..text.len().saturating_sub(1)]);
    before.saturating_add(within)
}
