#![tactic(auto)]

use crate::listed::Codes;
use atomic_table::{Seat as TableSeat, Table, TableRule};
use mark_core::{Edits, Event, Subject, View};
use std::alloc::Global;
use std::collections::LinkedList;
use std::marker::PhantomData;
use std::snapshot::Snapshot;

/// What a seat knows and has done: the subject of its table (none where the seat is spent), whether it is the
/// editor's, its view of the core, the shorter of the two logs of its last join, and what seats knew and did that
/// were handed in to it. `edits` and `marks` (the mark of each place) are the editor's alone. No program makes a
/// value.
pub struct Doing<S, E> {
    pub subject: Option<S>,
    pub editor: bool,
    pub view: View<LinkedList<E>>,
    pub shorter: LinkedList<E>,
    pub gathered: LinkedList<Past<E>>,
    pub edits: Edits<E>,
    pub marks: LinkedList<u64>,
}

/// What a single step did: the event that it was, and the word of the table that it loaded or stored, or that a claim
/// found. No program makes a value.
pub struct Made<E> {
    pub event: Event<E>,
    pub word: u64,
}

/// A single step of a seat, with its number among the single steps of the table, from 0.
pub struct OwnStep<E> {
    pub number: u64,
    pub made: Made<E>,
}

/// What a seat knew and did when it was handed in.
pub struct Past<E> {
    pub view: View<LinkedList<E>>,
    pub steps: LinkedList<OwnStep<E>>,
}

/// What the table keeps of a seat: what it knows, and its single steps in order.
pub struct History<S, E> {
    pub doing: Doing<S, E>,
    pub steps: LinkedList<OwnStep<E>>,
}

/// What the marks are about, as contracts see it: the subject, and the code that each place opened with.
#[derive(Drop)]
pub struct Topic<S> {
    pub subject: Snapshot<S>,
    pub opening: Snapshot<Codes>,
}

/// The rule of the table: words and views are those of a state of the core to which events lead from the opening one.
pub struct Keeps<S> {
    subject: PhantomData<S>,
}

impl<S: Subject> TableRule<S::Entry, History<S, S::Entry>, Topic<S>> for Keeps<S> {
    ghost use Rattle.mark_words.specs.Rules.{HoldsRule};
    ghost use Rattle.mark_words.specs.Doing.{first_history};

    ghost holds = { λ topic. HoldsRule S.places S.worth S.touches topic };

    ghost first = { first_history };
}

pub(crate) type MarkTable<S: Subject> = Table<
    S::Entry,
    History<S, S::Entry>,
    Topic<S>,
    Keeps<S>,
    Global,
>;
