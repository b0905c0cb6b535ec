#![tactic(auto)]

ghost use Rattle.mark_words.specs.Plays.{Saw, Marked, Committed};
ghost use Rattle.mark_words.specs.Plays.{BeganRead, WentOn, EndedRead, TriedClaim, PutWord, GaveBack};
ghost use Rattle.mark_words.specs.Doing.{copy_history, union_history, gather_history, spent_history};

use crate::tables::History;
use atomic_table::{Join, Play, Split};
use mark_core::Subject;
use std::marker::PhantomData;

/// A load of the count of commits.
pub(crate) struct Sees;

impl<S, E> Play<E, History<S, E>> for Sees {
    ghost then = { Saw };
}

/// A store of a mark, by a compare-exchange that brings the entry and always hits.
pub(crate) struct MarksPlace;

impl<S, E> Play<E, History<S, E>> for MarksPlace {
    ghost then = { Marked };
}

/// A store of the count of commits.
pub(crate) struct Commits;

impl<S, E> Play<E, History<S, E>> for Commits {
    ghost then = { Committed };
}

/// A load of a clean word.
pub(crate) struct ReadsClean;

impl<S, E> Play<E, History<S, E>> for ReadsClean {
    ghost then = { BeganRead };
}

/// A load of a value.
pub(crate) struct ReadsValue;

impl<S, E> Play<E, History<S, E>> for ReadsValue {
    ghost then = { WentOn };
}

/// A load of a mark, which tells of the subject.
pub(crate) struct ReadsMark<S> {
    subject: PhantomData<S>,
}

impl<S: Subject> Play<S::Entry, History<S, S::Entry>> for ReadsMark<S> {
    ghost then = { EndedRead S.worth S.touches };
}

/// A compare-exchange of a clean word.
pub(crate) struct Claims;

impl<S, E> Play<E, History<S, E>> for Claims {
    ghost then = { TriedClaim };
}

/// A store of a value.
pub(crate) struct Puts;

impl<S, E> Play<E, History<S, E>> for Puts {
    ghost then = { PutWord };
}

/// A store of a clean word.
pub(crate) struct Finishes;

impl<S, E> Play<E, History<S, E>> for Finishes {
    ghost then = { GaveBack };
}

/// A seat that knows what another does.
pub(crate) struct Copies;

impl<S, E> Split<History<S, E>> for Copies {
    ghost left = { λ history. history };

    ghost right = { copy_history };
}

/// Two seats' knowledge in one.
pub(crate) struct Unites;

impl<S, E> Join<History<S, E>> for Unites {
    ghost both = { union_history };

    ghost spent = { spent_history };
}

/// A seat that is handed in, with its view.
pub(crate) struct Gathers;

impl<S, E> Join<History<S, E>> for Gathers {
    ghost both = { gather_history };

    ghost spent = { spent_history };
}
