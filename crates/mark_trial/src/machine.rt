// The machine event by event: what no clause says, that each event has the outcome that a person expects, or isn't
// allowed. The expected outcomes were worked out by hand.
use crate::two_cells::TwoTestCells;
use mark_core::{Clean, Core, Event, Memory, Outcome, Seen, shown};
use std::alloc::Global;
use std::process::Abort;
use std::test::Fail;

/// Events, each with the outcome that is wanted, or `None` where it isn't to be allowed.
type Steps = Vec<(Event<u32>, Option<Outcome>)>;

/// The views: the editor, a worker and a viewer.
const EDITOR: u32 = 0;

const WORKER: u32 = 1;

const VIEWER: u32 = 2;

/// Does the event and answers its outcome, or `None` where it isn't allowed.
fn act(core: &mut Core<TwoTestCells>, event: Event<u32>) -> Result<Option<Outcome>, Memory> {
    if !core.has_room(&event) || !core.allows(&event)? {
        return Ok(None);
    }
    Ok(Some(core.step(event)?))
}

/// Does each event and compares its outcome with the one beside it. They come as they were made, so
/// that no test holds a list of steps beside a machine.
fn run(
    rt: &impl Abort,
    core: &mut Core<TwoTestCells>,
    steps: Result<Steps, Memory>,
) -> Result<(), Memory> {
    for (event, wanted) in steps? {
        assert_eq!(rt; act(core, event)?, wanted);
    }
    Ok(())
}

fn free(upto: u64) -> Clean {
    Clean { upto, held: false }
}

fn done() -> Option<Outcome> {
    Some(Outcome::Done)
}

fn count(number: u64) -> Option<Outcome> {
    Some(Outcome::Count(number))
}

fn claimed(taken: bool) -> Option<Outcome> {
    Some(Outcome::Claimed(taken))
}

fn see(view: u32) -> Event<u32> {
    Event::See { view }
}

fn split(view: u32) -> Event<u32> {
    Event::Split { view }
}

fn join(view: u32, other: u32) -> Event<u32> {
    Event::Join { view, other }
}

fn mark(entry: u32, place: u32) -> Event<u32> {
    let view = EDITOR;
    Event::Mark { view, entry, place }
}

fn commit(entry: u32) -> Event<u32> {
    let view = EDITOR;
    Event::Commit { view, entry }
}

fn claim(view: u32, place: u32, upto: u64) -> Event<u32> {
    let seen = free(upto);
    Event::Claim { view, place, seen }
}

fn put(view: u32, place: u32, number: u32) -> Event<u32> {
    let word = TwoTestCells::code(u64::from(number));
    Event::Put { view, place, word }
}

fn finish(view: u32, place: u32, mark: u64) -> Event<u32> {
    Event::Finish { view, place, mark }
}

/// The clean word, the value and the mark of a place.
type Words = (Clean, u64, u64);

/// The view reads these words of the place.
fn reading(alloc: Global, view: u32, place: u32, words: Words) -> Result<Steps, Memory> {
    let (clean, word, mark) = words;
    Ok(vec![in alloc;
        (
            Event::ReadClean { view, place },
            Some(Outcome::Clean(clean))
        ),
        (Event::ReadValue { view, place }, Some(Outcome::Word(word))),
        (Event::ReadMark { view, place }, Some(Outcome::Mark(mark))),
    ]?)
}

/// The viewer reads these words of the place, which show this at so many commits.
fn shows(
    rt: &impl Abort,
    alloc: Global,
    core: &mut Core<TwoTestCells>,
    place: u32,
    words: Words,
    number: u64,
    wanted: Seen,
) -> Result<(), Memory> {
    run(rt, core, reading(alloc, VIEWER, place, words))?;
    assert_eq!(rt; shown(number, words.0, words.1, words.2), wanted);
    Ok(())
}

/// The worker claims the place, puts the number and finishes for the mark.
fn working(alloc: Global, place: u32, upto: u64, number: u32, mark: u64) -> Result<Steps, Memory> {
    Ok(vec![in alloc;
        (claim(WORKER, place, upto), claimed(true)),
        (put(WORKER, place, number), done()),
        (finish(WORKER, place, mark), done()),
    ]?)
}

/// The worker reads the place as stale, claims it, puts the number and finishes for the mark.
fn compute(
    rt: &impl Abort,
    alloc: Global,
    core: &mut Core<TwoTestCells>,
    place: u32,
    old: (u64, u64),
    number: u32,
    mark: u64,
) -> Result<(), Memory> {
    let words = (free(old.0), old.1, mark);
    run(rt, core, reading(alloc, WORKER, place, words))?;
    run(rt, core, working(alloc, place, old.0, number, mark))
}

/// The worker and the viewer come to be, the editor sets the first cell to 5, and the worker learns of it.
fn setting_to_5(alloc: Global) -> Result<Steps, Memory> {
    Ok(vec![in alloc;
        (split(EDITOR), Some(Outcome::Seat(WORKER))),
        (split(EDITOR), Some(Outcome::Seat(VIEWER))),
        (mark(5, 0), done()),
        (mark(5, 1), done()),
        (commit(5), count(1)),
        (split(EDITOR), Some(Outcome::Seat(3))),
        (join(WORKER, 3), done()),
    ]?)
}

/// The first cell opens with the number 1 and is set to 5, and the second has a formula.
fn set_to_5(rt: &impl Abort, alloc: Global) -> Result<Core<TwoTestCells>, Memory> {
    let mut core = Core::open(alloc, TwoTestCells, &[Some(TwoTestCells::code(1)), None])?;
    run(rt, &mut core, setting_to_5(alloc))?;
    Ok(core)
}

/// The same, and both cells were computed for it.
fn computed_5(rt: &impl Abort, alloc: Global) -> Result<Core<TwoTestCells>, Memory> {
    let mut core = set_to_5(rt, alloc)?;
    compute(rt, alloc, &mut core, 0, (1, TwoTestCells::code(1)), 5, 1)?;
    compute(rt, alloc, &mut core, 1, (0, 0), 6, 1)?;
    Ok(core)
}

/// The viewer sees one commit, the editor makes the second one, and the worker learns of it.
fn setting_to_6(alloc: Global) -> Result<Steps, Memory> {
    Ok(vec![in alloc;
        (see(VIEWER), count(1)),
        (mark(6, 0), done()),
        (mark(6, 1), done()),
        (commit(6), count(2)),
        (split(EDITOR), Some(Outcome::Seat(4))),
        (join(WORKER, 4), done()),
    ]?)
}

#[test]
fn a_value_computed_for_a_later_edit_is_shown_as_newer(rt: HostRuntime) -> Result<(), Fail> {
    let alloc = rt.alloc();
    let mut core = computed_5(&rt, alloc)?;
    run(&rt, &mut core, setting_to_6(alloc))?;
    compute(&rt, alloc, &mut core, 0, (2, TwoTestCells::code(5)), 6, 2)?;
    let words = (free(3), 72057594037927985, 2);
    shows(&rt, alloc, &mut core, 0, words, 1, Seen::Newer(2))?;
    Ok(())
}

/// The editor marks one of the two places that an edit touches, and can't commit it yet.
fn marking_one(alloc: Global) -> Result<Steps, Memory> {
    Ok(vec![in alloc;
        (see(VIEWER), count(1)),
        (mark(6, 0), done()),
        (commit(6), None),
    ]?)
}

#[test]
fn a_marked_place_is_shown_as_stale_before_the_commit(rt: HostRuntime) -> Result<(), Fail> {
    let alloc = rt.alloc();
    let mut core = computed_5(&rt, alloc)?;
    run(&rt, &mut core, marking_one(alloc))?;
    let five = (free(2), TwoTestCells::code(5), 2);
    shows(&rt, alloc, &mut core, 0, five, 1, Seen::Stale(2))?;
    let six = TwoTestCells::code(6);
    shows(
        &rt,
        alloc,
        &mut core,
        1,
        (free(2), six, 1),
        1,
        Seen::Value(six),
    )?;
    Ok(())
}
