ghost use Rattle.std.specs.Prelude.{◌≡◌, length, OnOk, IfOk, IfErr};
ghost use Rattle.edit_log.specs.Touches.{TouchesPlace};
ghost use Rattle.mark_words.specs.Tokens.{topic_of, view_of};
ghost use Rattle.sheet_refs.specs.Sizes.{cell_count};
ghost use Rattle.live_sheet.specs.Closed.{AreInOrder, HasClosedWith, codes_of};
ghost use Rattle.live_sheet.specs.Held.{AreWordsOf};
ghost use Rattle.live_sheet.specs.Ranges.{KnowsAll};
ghost use Rattle.live_sheet.specs.Rooms.{IsRoomFor};

use crate::closed::{Closed, NotClosed};
use crate::closed_cells::close_cells;
use crate::crossing::{entries_cross, subject_crosses};
use crate::desk::Desk;
use crate::gathering::gather;
use crate::live::Live;
use crate::locked::Locked;
use crate::naming::Naming;
use crate::pass::Pass;
use crate::room::Room;
use crate::whole::settle_whole;
use edit_log::OverSheet;
use mark_words::Marks;
use recalc_workers::Gate;
use sheet_refs::Memory;
use std::alloc::Global;
use std::marker::PhantomData;
use std::sync::{Mutex, Wait};
use std::thread::Threads;

impl<N: Naming> Locked<N> {
    /// The number of cells.
    fn cells(&self) -> u32
        ensures { result ≡ cell_count N.opening.sizes }
    {
        let _ = self.book.length();
        let sizes = self.book.sheet().sizes();
        sizes.rows * sizes.cols
    }

    /// Computes all cells that aren't clean, of which the editor's seat knows then, and takes all memory that closing
    /// wants. Whatever is answered, the sheet, its graph and the log stay as they are.
    fn ready<R: Threads + Wait + Sync, T: Gate + Sync>(
        &mut self,
        rt: &R,
        alloc: Global,
        marks: &Marks<OverSheet>,
        clients: usize,
        gate: &T,
    ) -> Result<Room, Memory>
        requires words { AreWordsOf N.words N.opening marks.now }
        ensures book { self.new.book ≡ self.old.book }
        ensures room { IfOk result (IsRoomFor (cell_count N.opening.sizes) clients) }
        ensures settled { OnOk result (KnowsAll (TouchesPlace N.opening) N.opening.sizes (view_of self.new.editor)) }
    {
        entries_cross();
        subject_crosses();
        let cells = self.cells() as usize;
        let Locked {
            book,
            editor,
            desks,
            ..
        } = self;
        let _ = book.length();
        settle_whole(rt, alloc, book, marks, editor, desks.as_mut_slice(), gate)?;
        Room::new(alloc, cells, clients)
    }
    /// Closes what lies behind the lock, with the words and the passes of all clients. All cells are clean.
    fn close(self, marks: Marks<OverSheet>, passes: Vec<Pass<N>>, room: Room) -> Closed
        requires words { AreWordsOf N.words N.opening marks }
        requires known { KnowsAll (TouchesPlace N.opening) N.opening.sizes (view_of self.editor) }
        requires room { IsRoomFor (cell_count N.opening.sizes) (length passes.items) room }
        requires clients { length passes.items ≡ N.clients }
        requires order { AreInOrder passes.items }
        ensures { HasClosedWith N.opening (topic_of marks).opening.value passes.items result }
    {
        let cells = self.cells();
        let Locked {
            book,
            editor,
            desks: _,
            mut counted,
            rest,
        } = self;
        let Room { values, mut seats } = room;
        let mut share = rest.share();
        gather(&mut share, passes, &mut seats);
        counted.audit(&mut share);
        let values = close_cells(marks, editor, seats, cells, values);
        let (sheet, log) = book.into_parts();
        // Says that it is a sheet.
        let _ = sheet.sizes();
        Closed { log, sheet, values }
    }
}

impl<N: Naming> Live<N> {
    /// Computes all cells that aren't clean, and closes. The log goes on from the one that each pass knows, and each
    /// client has in it the accepted edits of its pass and no others. The values are the codes of the values of all
    /// cells.
    ///
    /// All memory is taken before anything is closed. After want of it, all that was handed in comes back, with the
    /// same log; some cells may have been computed.
    pub fn close<R: Threads + Wait + Sync, T: Gate + Sync>(
        self,
        rt: &R,
        passes: Vec<Pass<N>>,
        desks: Vec<Desk<N>>,
        gate: &T,
    ) -> Result<Closed, NotClosed<N>>
        requires clients { length passes.items ≡ N.clients }
        requires order { AreInOrder passes.items }
        ensures closed { IfOk result (HasClosedWith N.opening (codes_of self) passes.items) }
        ensures passes { IfErr result (λ kept. kept.passes.items ≡ passes.items) }
        ensures desks { IfErr result (λ kept. kept.desks.items ≡ desks.items) }
        ensures words { IfErr result (λ kept. codes_of kept.live ≡ codes_of self) }
    {
        let Live {
            marks,
            jobs,
            locked,
            alloc,
            of: _,
        } = self;
        let mut locked = locked.into_inner();
        match locked.ready(rt, alloc, &marks, passes.len(), gate) {
            Ok(room) => Ok(locked.close(marks, passes, room)),
            Err(_) => {
                let live = Live {
                    marks,
                    jobs,
                    locked: Mutex::new(locked),
                    alloc,
                    of: PhantomData,
                };
                Err(NotClosed {
                    live,
                    passes,
                    desks,
                })
            }
        }
    }
}
