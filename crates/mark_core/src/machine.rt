#![tactic(auto)]

ghost use Rattle.std.specs.Prelude.{◌≡◌, ◌<◌, ◌^◌, IfOk, map, length};
ghost use Rattle.mark_core.specs.Places.{opening_place};
ghost use Rattle.mark_core.specs.States.{State, opening_state};

use crate::views::Stored;
use crate::words::{Clean, Memory, Place};
use std::alloc::{AllocError, Global};
use std::marker::Model;

mod edits;
mod looks;
mod reads;
mod seats;
mod work;

/// The state of the protocol: the log, the entry that is pending and the places marked for it, the
/// words of the places, and the views.
#[derive(Drop)]
pub struct Machine<E> {
    alloc: Global,
    log: Vec<E>,
    pending: Option<E>,
    marked: Vec<u32>,
    places: Vec<Place>,
    views: Vec<Stored>,
}

impl<E> Model for Machine<E> {
    ghost use Rattle.mark_core.specs.States.{State};
    ghost use Rattle.mark_core.specs.Kept.{kept_state, IsKept};

    ghost Value = { State E };

    ghost view = { λ m.
        kept_state m.log.items m.pending m.marked.items m.places.items m.views.items };

    ghost invariant = { λ m. IsKept m.log.items m.places.items m.views.items };
}

impl<E: Drop> Machine<E> {
    /// The opening state, with the codes that are given.
    pub fn open(alloc: Global, opening: &[Option<u64>]) -> Result<Machine<E>, Memory>
        requires { length opening.now < 2 ^ 32 }
        ensures { IfOk result (λ machine. machine ≡ opening_state opening.now) }
    {
        let places = places_of_codes(alloc, opening)?;
        let mut views = Vec::new(alloc);
        views.push(Stored::editor(alloc))?;
        Ok(Machine {
            alloc,
            log: Vec::new(alloc),
            pending: None,
            marked: Vec::new(alloc),
            places,
            views,
        })
    }
}

/// The places as they open.
fn places_of_codes(alloc: Global, opening: &[Option<u64>]) -> Result<Vec<Place>, AllocError>
    ensures { IfOk result (λ places. places.items ≡ map opening_place opening.now) }
{
    opening
        .iter()
        .map(|code| place_of_code(*code))
        .collect(alloc)
}

/// A place as it opens.
fn place_of_code(code: Option<u64>) -> Place
    ensures { result ≡ opening_place code }
{
    match code {
        None => Place {
            mark: 0,
            clean: Clean {
                upto: 0,
                held: false,
            },
            value: 0,
        },
        Some(value) => Place {
            mark: 0,
            clean: Clean {
                upto: 1,
                held: false,
            },
            value,
        },
    }
}
