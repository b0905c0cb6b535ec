ghost use Rattle.recalc_workers.specs.Laws.{TakesInOrder, FindsWhatWasPut, IsRefusedAtRoom};
ghost use Rattle.recalc_workers.specs.Laws.{CountsHeld, FitsByNumbers, IsRefusedByMany};

/// What the words on hands come to. A hand that is the queue's only one takes what it put, in order; finds a job where
/// it put one; is refused at 65,536 jobs, no sooner and no later; and knows how many the queue held. A job is one of
/// the sheet by its row, column and tries; and who is refused is so by 65,536 jobs, each with at most 16 tries.
pub fn hand_laws()
    ensures order { TakesInOrder }
    ensures found { FindsWhatWasPut }
    ensures room { IsRefusedAtRoom }
    ensures held { CountsHeld }
    ensures fits { FitsByNumbers }
    ensures many { IsRefusedByMany }
{}
