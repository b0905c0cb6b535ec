ghost use Rattle.live_sheet.specs.Held.{IsDeskIn};

use crate::naming::Naming;
use crate::store::Store;
use edit_log::OverSheet;
use recalc_workers::Desk as WorkerDesk;
use std::marker::PhantomData;
use std::sync::Mutex;

/// Where one worker works. It keeps what stands in some cells, so that a turn seldom takes the lock of the sheet.
///
/// What it keeps has a lock of its own, which no other thread takes: an office that was lent a `&mut` can't say that it
/// still holds that one.
#[derive(Drop)]
pub struct Desk<N: Naming> {
    pub(crate) desk: WorkerDesk<OverSheet>,
    pub(crate) store: Mutex<Store<N>>,
    pub(crate) of: PhantomData<N>,
    ghost belongs: { IsDeskIn N.words N.queue N.opening N.opening.sizes desk },
}
