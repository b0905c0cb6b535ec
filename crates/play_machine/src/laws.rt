ghost use Rattle.play_machine.specs.Machine.{OneList};

/// What holds of all sheets and steps: steps over a sheet give one list of reports.
pub fn play_laws()
    ensures { OneList }
{}
