ghost use Rattle.std.specs.Prelude.{IfOk};
ghost use Rattle.live_sheet.specs.Rooms.{IsRoomFor};

use edit_log::OverSheet;
use mark_words::Seat;
use sheet_refs::Memory;
use std::alloc::Global;

/// What closing takes of memory: room for the values of all cells, and for the seats of all passes.
#[derive(Drop)]
pub(crate) struct Room {
    pub(crate) values: Vec<u64>,
    pub(crate) seats: Vec<Seat<OverSheet>>,
}

impl Room {
    /// Room for so many values and so many seats.
    pub(crate) fn new(alloc: Global, cells: usize, clients: usize) -> Result<Room, Memory>
        ensures { IfOk result (IsRoomFor cells clients) }
    {
        let values = Vec::with_capacity(alloc, cells)?;
        let seats = Vec::with_capacity(alloc, clients)?;
        Ok(Room { values, seats })
    }
}
