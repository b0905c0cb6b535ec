ghost use Rattle.edit_script.specs.Scripts.{OneScriptResult};

/// What holds of the texts of scripts: over a sheet's sizes, edition and labels a text gives one thing, a script or a
/// refusal, and leaves one table of labels. With the clause `result` of `read_script` each refusal therefore comes
/// exactly where its cause stands.
pub fn script_laws()
    ensures { OneScriptResult }
{}
