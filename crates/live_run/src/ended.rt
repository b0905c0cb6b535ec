ghost use Rattle.std.specs.Prelude.{◌≡◌, ◌≤◌, [], length, map, All, IfOk, vec_capacity};
ghost use Rattle.live_run.specs.Tasks.{HadMemory};

use crate::client::Client;
use live_sheet::{Naming, Pass};
use sheet_model::Report;
use sheet_refs::Memory;
use std::alloc::Global;

/// The passes of clients that have come to their end, and their reports, both in the order of the clients.
#[derive(Drop)]
pub(crate) struct Ended<N: Naming> {
    pub(crate) passes: Vec<Pass<N>>,
    pub(crate) reports: Vec<Vec<Report>>,
}

impl<N: Naming> Ended<N> {
    /// Room for those of so many clients.
    pub(crate) fn new(alloc: Global, clients: usize) -> Result<Ended<N>, Memory>
        ensures passes { IfOk result (λ ended. ended.passes.items ≡ []) }
        ensures reports { IfOk result (λ ended. ended.reports.items ≡ []) }
        ensures room { IfOk result (λ ended. clients ≤ vec_capacity ended.passes) }
        ensures space { IfOk result (λ ended. clients ≤ vec_capacity ended.reports) }
    {
        let passes = Vec::with_capacity(alloc, clients)?;
        let reports = Vec::with_capacity(alloc, clients)?;
        Ok(Ended { passes, reports })
    }

    /// Takes tasks apart, in their order; there is room for them. `Memory` where one of them wanted it.
    pub(crate) fn take_apart(self, tasks: Vec<Client<N>>) -> Result<Ended<N>, Memory>
        requires passes { self.passes.items ≡ [] }
        requires reports { self.reports.items ≡ [] }
        requires room { length tasks.items ≤ vec_capacity self.passes }
        requires space { length tasks.items ≤ vec_capacity self.reports }
        ensures passes { IfOk result (λ ended. ended.passes.items ≡ map (λ task. task.pass) tasks.items) }
        ensures reports { IfOk result (λ ended. ended.reports.items ≡ map (λ task. task.reports) tasks.items) }
        ensures had { IfOk result (λ _. All HadMemory tasks.items) }
    {
        let Ended {
            mut passes,
            mut reports,
        } = self;
        let mut tasks = tasks;
        for _ in 0..tasks.len() {
            let Client {
                client: _,
                pass,
                orders: _,
                reports: shown,
                failed,
            } = tasks.remove(0);
            if failed {
                return Err(Memory);
            }
            passes.push_reserved(pass);
            reports.push_reserved(shown);
        }
        Ok(Ended { passes, reports })
    }
}
