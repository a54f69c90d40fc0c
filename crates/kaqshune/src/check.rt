// Files are read and gone over line by line, and what isn't understood is printed.
ghost use Rattle.std.specs.Prelude.{◌≡◌, ℕ, ◌≤◌, IfOk};
ghost use Rattle.kaqshune.specs.Checked.{Checked};

use crate::lines::Lines;
use anyhow::anyhow;
use parser::code::Span;
use report::{show_line, show_mark};
use std::alloc::{AllocError, Global};
use std::io::Write;
use std::{fmt, fs};
use syntax::read::{Refusal, read_line, room};

// So many things of a kind, as they are printed.
#[derive(Clone, Copy)]
struct Counted(u64, &'static str);

impl fmt::Display for Counted {
    fn fmt<W: fmt::Write>(&self, f: &mut fmt::Formatter<W>) -> fmt::Result {
        let Counted(n, thing) = *self;
        let ending = if n == 1 { "" } else { "s" };
        write!(f, "{n} {thing}{ending}")
    }
}

// A line that isn't understood, by its file and number, and where it goes wrong.
#[derive(Clone, Copy)]
struct Fault<'a> {
    path: &'a str,
    number: u64,
    line: &'a [u32],
    place: Span,
}

impl Fault<'_> {
    // The place and the fault, the line, and a mark under the place.
    fn print<W: Write>(&self, heap: Global, out: &mut W) -> anyhow::Result<()> {
        let (path, number) = (self.path, self.number);
        let column = u64::from(self.place.from) + 1;
        let head = format!(in heap; "{path}:{number}:{column}: fault 1: not understood\n")?;
        out.write_all(head.as_bytes())?;
        let (from, to) = (self.place.from as usize, self.place.to as usize);
        let len = self.line.len() + to.max(from + 1) + 2;
        let mut shown = Vec::with_capacity(heap, len)?;
        show_line(&mut shown, self.line)?;
        shown.push(b'\n')?;
        show_mark(&mut shown, from, to)?;
        shown.push(b'\n')?;
        out.write_all(&shown[..])?;
        Ok(())
    }
}

// What was seen so far, and the row of words in which lines are read.
#[derive(Drop)]
pub struct Totals {
    files: u64,
    lines: u64,
    faults: u64,
    readable: bool,
    row: Vec<u32>,
}

impl Totals {
    pub fn new(heap: Global) -> Totals {
        Totals {
            files: 0,
            lines: 0,
            faults: 0,
            readable: true,
            row: Vec::new(heap),
        }
    }

    // Goes over a file. One that can't be read is said on standard error, and the next ones are still read.
    pub fn check_file<W: Write>(
        &mut self,
        rt: &HostRuntime,
        path: &str,
        out: &mut W,
    ) -> anyhow::Result<()> {
        let bytes = match fs::read(rt, path) {
            Ok(bytes) => bytes,
            Err(e) => {
                self.readable = false;
                eprintln!(rt; "kaqshune: {path}: {e}")?;
                return Ok(());
            }
        };
        self.files = self.files.saturating_add(1);
        let text = widened(rt.alloc(), &bytes[..])?;
        self.check_text(rt.alloc(), path, &text[..], out)
    }

    // Goes over a text line by line. An empty line at its very end is none.
    fn check_text<W: Write>(
        &mut self,
        heap: Global,
        path: &str,
        text: &[u32],
        out: &mut W,
    ) -> anyhow::Result<()> {
        for (number, line) in (1..u64::MAX).zip(Lines::new(text)) {
            self.lines = self.lines.saturating_add(1);
            if let Some(place) = wrong_place(&mut self.row, line)? {
                self.faults = self.faults.saturating_add(1);
                let fault = Fault {
                    path,
                    number,
                    line,
                    place,
                };
                fault.print(heap, out)?;
            }
        }
        Ok(())
    }

    // How many files, lines and faults there were.
    pub fn print<W: Write>(&self, rt: &HostRuntime, out: &mut W) -> anyhow::Result<()> {
        let files = Counted(self.files, "file");
        let lines = Counted(self.lines, "line");
        let faults = Counted(self.faults, "fault");
        let said = format!(in rt.alloc(); "{files}, {lines}, {faults}\n")?;
        out.write_all(said.as_bytes())?;
        Ok(())
    }

    // Whether each file could be read, and no fault was found in any, where faults count.
    pub fn is_fine(&self, faults_count: bool) -> bool {
        self.readable && !(faults_count && self.faults > 0)
    }
}

// Each byte as a word.
fn widened(heap: Global, bytes: &[u8]) -> Result<Vec<u32>, AllocError>
    ensures { IfOk result (λ v. v.items ≡ bytes.now) }
{
    bytes.iter().map(|b| u32::from(*b)).collect(heap)
}

// How many words a row needs in which a line of so many bytes is read.
fn row_len(len: usize) -> usize
    ensures { len ≤ result }
{
    len.saturating_add(room(len))
}

// Where a line isn't understood, if it isn't. It is read in the row, of which nothing is kept.
fn wrong_place(row: &mut Vec<u32>, line: &[u32]) -> anyhow::Result<Option<Span>>
    ensures { IfOk result (λ o. Checked line.now o) }
{
    row.clear();
    row.extend_from_slice(line)?;
    row.resize(row_len(line.len()), 0)?;
    match read_line(&mut row[..], line.len(), line.len()) {
        Ok(_) => Ok(None),
        Err(Refusal::Wrong(place)) => Ok(Some(place)),
        Err(Refusal::NoRoom) => Err(anyhow!("a line is too long")),
    }
}
