// Who reads the lines of a text: this thread alone, or several at once.
ghost use Rattle.std.specs.Prelude.{◌<◌, ◌≤◌, ⊤, length, IfOk, IfSome};
ghost use Rattle.std.specs.Str.{IsAscii};
ghost use Rattle.std.specs.Thread.{IsSync};
ghost use Rattle.csv_sheet.specs.Ahead.{AreAhead, Begin, in_lists, text_fields};
ghost use Rattle.csv_sheet.specs.Lines.{IsCountOf};

use crate::ahead::{joined, read_list, read_parts, split_lines};
use crate::known::Ahead;
use crate::lines::{Lines, count_lines};
use formula_syntax::Edition;
use sheet_refs::Memory;
use std::alloc::Global;
use std::thread::{Threads, available_parallelism, join};

/// How many bytes of a text the thread that fills a sheet reads at once, and half of what each other thread does:
/// enough that starting a thread takes little of the time, and so few that what is known ahead takes little of the
/// memory.
const PART: usize = 65_536;

/// A way to read the lines of a text.
pub(crate) trait LineReader {
    // Whether it may be asked.
    ghost ready: { Type 0 } = { ⊤ };

    /// What is counted of the lines of a text; None where they may not be its records.
    fn count(&self, text: &[u8]) -> Option<Lines>
        requires ready { ready }
        requires short { length text.now ≤ 16777216 }
        ensures { IfSome result (λ lines. IsCountOf text.now lines) };

    /// How many bytes of a text are best read at once.
    fn at_once(&self) -> usize;

    /// Runs `work`, and meanwhile learns what is known of the first fields of a text of lines, in their order; it may
    /// be nothing.
    fn read_beside<B, W: FnOnce() -> B>(
        &self,
        alloc: Global,
        edition: Edition,
        text: &[u8],
        work: W,
    ) -> (Result<Ahead, Memory>, B)
        requires ready { ready }
        requires ascii { IsAscii text.now }
        requires short { length text.now ≤ 16777216 }
        requires work { W.pre work }
        ensures ahead { IfOk result.0 (λ ahead. Begin edition (in_lists ahead.items) (text_fields text.now)) }
        ensures work { W.post work result.1 };
}

/// One thread reads, and nothing ahead.
#[derive(Drop)]
pub(crate) struct Alone;

impl LineReader for Alone {
    fn count(&self, text: &[u8]) -> Option<Lines> {
        count_lines(text)
    }

    fn at_once(&self) -> usize {
        usize::MAX
    }

    fn read_beside<B, W: FnOnce() -> B>(
        &self,
        alloc: Global,
        _: Edition,
        _: &[u8],
        work: W,
    ) -> (Result<Ahead, Memory>, B) {
        (Ok(Vec::new(alloc)), work())
    }
}

/// So many other threads read beside this one.
#[derive(Drop)]
pub(crate) struct InThreads<'a, R> {
    rt: &'a R,
    others: usize,
}

impl<'a, R: Threads> InThreads<'a, R> {
    /// As many in all as there are processors.
    pub(crate) fn new(rt: &'a R) -> InThreads<'a, R> {
        let others = match available_parallelism(rt) {
            Ok(processors) => processors.get() - 1,
            Err(_) => 0,
        };
        InThreads { rt, others }
    }

    // Whether a text is worth several threads.
    fn divides(&self, text: &[u8]) -> bool {
        self.others > 0 && text.len() >= PART
    }

    // How many shares a text is cut into: two for each other thread, and one for this one, which also fills the sheet.
    fn shares(&self) -> usize
        ensures { 0 < result }
    {
        self.others.saturating_mul(2).saturating_add(1)
    }
}

impl<R: Threads + Sync> LineReader for InThreads<'_, R> {
    ghost ready = { IsSync R.row };

    fn count(&self, text: &[u8]) -> Option<Lines> {
        if !self.divides(text) {
            return count_lines(text);
        }
        count_parts(self.rt, text, self.others.saturating_add(1))
    }

    fn at_once(&self) -> usize {
        PART.saturating_mul(self.shares())
    }

    fn read_beside<B, W: FnOnce() -> B>(
        &self,
        alloc: Global,
        edition: Edition,
        text: &[u8],
        work: W,
    ) -> (Result<Ahead, Memory>, B) {
        if !self.divides(text) {
            return (Ok(Vec::new(alloc)), work());
        }
        let own = text.len() / self.shares();
        let (front, back) = split_lines(text, text.len() - own);
        let fill_and_read = || -> (B, Result<Ahead, Memory>)
            requires { W.pre work × IsAscii back.now × (length back.now ≤ 16777216) }
            ensures { W.post work result.0
                × IfOk result.1 (λ ahead. AreAhead edition (text_fields back.entry.now) (in_lists ahead.items)) }
        {
            let done = work();
            (done, read_list(alloc, edition, back))
        };
        let (first, (done, second)) = read_parts(
            self.rt,
            alloc,
            edition,
            front,
            self.others,
            fill_and_read,
        );
        (joined(first, second), done)
    }
}

// What is counted of the lines of a text, of which each of so many threads reads a part. This one starts them, one
// after the other, and waits, so that each finds a processor.
fn count_parts<R: Threads + Sync>(rt: &R, text: &[u8], threads: usize) -> Option<Lines>
    requires { length text.now ≤ 16777216 }
    ensures { IfSome result (λ lines. IsCountOf text.now lines) }
{
    if threads == 0 {
        return count_lines(text);
    }
    let (front, back) = split_lines(text, text.len() / threads);
    let left = threads - 1;
    let (first, second) = join(
        rt,
        || -> Option<Lines>
            requires { length front.now ≤ 16777216 }
            ensures { IfSome result (λ lines. IsCountOf front.entry.now lines) }
        { count_lines(front) },
        || -> Option<Lines>
            requires { IsSync R.row × (length back.now ≤ 16777216) }
            ensures { IfSome result (λ lines. IsCountOf back.entry.now lines) }
        { count_parts(rt, back, left) },
    );
    Some(first?.and(&second?))
}
