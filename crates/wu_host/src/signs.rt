//! The progress line on a terminal: how many answers of how many have gone out, after how many seconds, and the last.
//! Of an answer that goes to a file, how many rows have gone out.
//! No contract speaks of the terminal; what it shows is wiped before anything else is written. A terminal that cannot
//! wipe has none. Where rows were skipped, a line stays that says where to read on.

ghost use Rattle.std.specs.Prelude.{◌≡◌};
ghost use Rattle.wu_host.specs.Signs.{handed_on};

use crate::expected::Expected;
use std::io::{self, Write};
use std::time::Instant;

/// The bytes that wipe the last line of a terminal.
const WIPE: &[u8] = b"\r\x1b[K";

/// How many bytes of a line are shown at most. They fit into 80 columns if the numbers before them have at most eleven
/// digits together.
const MOST_SHOWN: usize = 40;

/// After how many rows of an answer that goes to a file their number is shown anew.
const ROWS_BETWEEN: u64 = 10_000;

/// Returns how many rows end in these bytes.
fn rows_ended(bytes: &[u8]) -> u64 {
    let mut rows: u64 = 0;
    for byte in bytes {
        if *byte == b'\n' {
            rows = rows.saturating_add(1);
        }
    }
    rows
}

/// Returns the number before the last word, if that is `skipped`.
fn skipped_in(line: &[u8]) -> Option<u64> {
    let front = std::str::from_utf8(line).ok()?.strip_suffix(" skipped")?;
    let (_rest, number) = front.rsplit_once(' ')?;
    number.parse::<u64>().ok()
}

/// The first line of an answer.
#[derive(Drop)]
struct FirstLine {
    bytes: [u8; MOST_SHOWN],
    len: usize,
    is_ended: bool,
}

impl FirstLine {
    /// Makes a first line without a byte.
    fn new() -> Self {
        FirstLine {
            bytes: [0; MOST_SHOWN],
            len: 0,
            is_ended: false,
        }
    }

    /// Takes a byte of the answer.
    fn take(&mut self, byte: u8) {
        if self.is_ended {
            return;
        }
        if byte == b'\n' {
            self.is_ended = true;
        } else if self.len < MOST_SHOWN {
            self.bytes[self.len] = byte;
            self.len += 1;
        }
    }

    /// Returns the line, if all of it can be shown.
    fn shown(&self) -> Option<&[u8]> {
        if self.is_ended && self.len < MOST_SHOWN {
            self.bytes.get(..self.len)
        } else {
            None
        }
    }

    /// Returns how many rows the line reports as skipped, as far as all of it can be shown.
    fn skipped(&self) -> u64 {
        match self.shown() {
            Some(line) => skipped_in(line).unwrap_or(0),
            None => 0,
        }
    }
}

/// The progress line of a terminal; without a terminal nothing is shown.
#[derive(Drop)]
pub struct Signs<T: Drop> {
    terminal: Option<T>,
    can_wipe: bool,
    /// Whether the answers go to a file, so that none of their bytes come to the terminal.
    is_to_file: bool,
    clock: HostRuntime,
    /// When the program began; `None` if the clock failed.
    begun: Option<Instant>,
    answers: u64,
    expected: Option<Expected>,
    answer: FirstLine,
    /// How many rows of the answer have gone out, where the answers go to a file.
    rows: u64,
    is_shown: bool,
    /// How many rows the answers reported as skipped.
    skipped: u64,
}

impl<T: Write + Drop> Signs<T> {
    /// Makes the progress line of this terminal, or none; its seconds begin now. A terminal that cannot wipe shows no
    /// progress.
    pub fn new(
        terminal: Option<T>,
        clock: HostRuntime,
        can_wipe: bool,
        is_to_file: bool,
        expected: Option<Expected>,
    ) -> Self {
        Signs {
            terminal,
            can_wipe,
            is_to_file,
            clock,
            begun: Instant::now(&clock).ok(),
            answers: 0,
            expected,
            answer: FirstLine::new(),
            rows: 0,
            is_shown: false,
            skipped: 0,
        }
    }

    /// Returns how many whole seconds have passed; `None` if the clock fails.
    fn seconds(&self) -> Option<u64> {
        let passed = self.begun?.elapsed(&self.clock).ok()?;
        Some(passed.as_secs())
    }

    /// Shows how many answers of how many went out, after how many seconds, and the last one; before the first, that
    /// the database is opened.
    fn tell(&mut self) {
        if !self.can_wipe || self.terminal.is_none() {
            return;
        }
        let answers = self.answers;
        let expected = self.expected;
        let seconds = self.seconds();
        let Some(terminal) = &mut self.terminal else {
            return;
        };
        self.is_shown = true;
        if answers == 0 {
            let _ = terminal.write_all(b"lintelthyme: opening");
            return;
        }
        let _ = write!(terminal, "lintelthyme: {answers}");
        if let Some(
            Expected {
                answers,
                may_be_more,
            },
        ) = expected
        {
            let more = if may_be_more { " or more" } else { "" };
            let _ = write!(terminal, " of {answers}{more}");
        }
        let _ = terminal.write_all(b" done");
        if let Some(seconds) = seconds {
            let _ = write!(terminal, ", {seconds} s");
        }
        if let Some(line) = self.answer.shown() {
            let _ = terminal.write_all(b", ");
            let _ = terminal.write_all(line);
        }
    }

    /// Shows how many rows of the answer have gone out, after how many seconds.
    fn tell_rows(&mut self) {
        if !self.can_wipe {
            return;
        }
        self.wipe();
        let rows = self.rows;
        let seconds = self.seconds();
        let Some(terminal) = &mut self.terminal else {
            return;
        };
        self.is_shown = true;
        let _ = write!(terminal, "lintelthyme: {rows} rows");
        if let Some(seconds) = seconds {
            let _ = write!(terminal, ", {seconds} s");
        }
    }

    /// Counts the rows that end in these bytes, and shows their number from time to time.
    fn count_rows(&mut self, bytes: &[u8]) {
        let shown = self.rows / ROWS_BETWEEN;
        self.rows = self.rows.saturating_add(rows_ended(bytes));
        if self.rows / ROWS_BETWEEN > shown {
            self.tell_rows();
        }
    }

    /// Takes what is written of the first line of an answer.
    fn take_line(&mut self, bytes: &[u8]) {
        if self.answer.is_ended {
            return;
        }
        for byte in bytes {
            self.answer.take(*byte);
        }
    }

    /// Takes what is written of an answer.
    fn take(&mut self, bytes: &[u8]) {
        if self.terminal.is_none() {
            return;
        }
        self.take_line(bytes);
        if self.is_to_file {
            self.count_rows(bytes);
        }
    }

    /// Wipes what is shown.
    fn wipe(&mut self) {
        if !self.is_shown {
            return;
        }
        self.is_shown = false;
        if let Some(terminal) = &mut self.terminal {
            let _ = terminal.write_all(WIPE);
        }
    }

    /// Wipes what is shown before bytes that may come to the same terminal.
    fn make_way(&mut self) {
        if !self.is_to_file {
            self.wipe();
        }
    }

    /// Wipes what is shown. Where rows were skipped, a line stays that says where to read on.
    fn finish(&mut self) {
        self.wipe();
        if self.skipped == 0 {
            return;
        }
        let skipped = self.skipped;
        if let Some(terminal) = &mut self.terminal {
            let _ = writeln!(terminal, "{skipped} skipped: see explain skips");
        }
    }

    /// Counts one more answer, and shows it.
    fn count(&mut self) {
        self.answers = self.answers.saturating_add(1);
        self.tell();
        self.skipped = self.skipped.saturating_add(self.answer.skipped());
        self.answer = FirstLine::new();
        self.rows = 0;
    }
}

/// A writer of answers. Each answer is flushed, and then the progress line counts it.
#[derive(Drop)]
pub struct Watched<O: Drop, T: Drop> {
    out: O,
    signs: Signs<T>,
}

impl<O: Write + Drop, T: Write + Drop> Watched<O, T> {
    /// Makes a writer of this output, with this progress line.
    pub fn new(out: O, signs: Signs<T>) -> Self
        // Nothing is written on the output.
        ensures { result.out ≡ out }
    {
        Watched { out, signs }
    }

    /// Shows that work begins.
    pub fn begin(&mut self)
        // Nothing is written on the output.
        ensures { self.new.out ≡ self.old.out }
    {
        self.signs.tell();
    }

    /// Wipes what is shown, and says where to read on if rows were skipped.
    pub fn end(&mut self)
        // Nothing is written on the output.
        ensures { self.new.out ≡ self.old.out }
    {
        self.signs.finish();
    }
}

impl<O: Write + Drop, T: Write + Drop> Write for Watched<O, T> {
    // It hands on what it is given, and nothing else.
    ghost contents = { λ w. O.contents w.out };

    fn write(&mut self, bytes: &[u8]) -> io::Result<usize> {
        self.signs.make_way();
        let count = self.out.write(bytes)?;
        if let Some(taken) = bytes.get(..count) {
            self.signs.take(taken);
        }
        Ok(count)
    }

    fn flush(&mut self) -> io::Result<()> {
        self.signs.wipe();
        let flushed = self.out.flush();
        self.signs.count();
        flushed
    }
}

/// A writer that wipes the last line of a terminal before its first bytes. Without a terminal it hands on all that it
/// is given, and nothing else.
#[derive(Drop)]
pub struct Cleared<E: Drop> {
    out: E,
    is_to_wipe: bool,
}

impl<E: Write + Drop> Cleared<E> {
    /// Makes a writer that wipes a line of the terminal before its first bytes if `is_terminal`.
    pub fn new(out: E, is_terminal: bool) -> Self
        // Without a terminal the writer holds exactly what the given one holds; with one nothing is
        // known of its contents.
        ensures { handed_on result.is_to_wipe (E.contents result.out)
            ≡ handed_on is_terminal (E.contents out) }
    {
        Cleared {
            out,
            is_to_wipe: is_terminal,
        }
    }
}

impl<E: Write + Drop> Write for Cleared<E> {
    ghost use Rattle.wu_host.specs.Signs.{handed_on};

    // It hands on what it is given and nothing else, except where a line of a terminal has to be
    // wiped first.
    ghost contents = { λ w. handed_on w.is_to_wipe (E.contents w.out) };

    fn write(&mut self, bytes: &[u8]) -> io::Result<usize> {
        if self.is_to_wipe {
            self.is_to_wipe = false;
            let _ = self.out.write_all(WIPE);
            return self.out.write(bytes);
        }
        self.out.write(bytes)
    }

    fn flush(&mut self) -> io::Result<()> {
        self.out.flush()
    }
}
