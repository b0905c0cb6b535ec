ghost use Rattle.std.specs.Prelude.{◌≡◌, ◌≢◌, ◌<◌, length, map, string_bytes, All, AllPairs};

use sheet_model::Edit;
use sheet_refs::Range;
use std::marker::Model;

/// For whom a script is written.
#[derive(Clone, Copy, Debug, PartialEq, Eq, Drop)]
pub enum Mode {
    /// One step after the other, with turns of work between them where the script asks for them.
    Play,
    /// By threads; the workers go on by themselves, and no line asks for turns.
    Live,
}

/// What a line of a script asks for.
#[derive(Drop)]
pub enum Command {
    /// An edit.
    Put(Edit),
    /// A look at a window.
    Look(Range),
    /// A look at a window, once all of it is computed.
    Firm(Range),
    /// So many turns of work, 1 to 1,048,576.
    Work(u32),
}

/// A command of a client.
#[derive(Drop)]
pub struct Step {
    /// The client's place, from 0, among the script's names.
    pub client: u32,
    /// What it asks for.
    pub command: Command,
}

/// The clients of a script and their commands.
///
/// The names are distinct, and each step's client is one of them.
#[derive(Drop)]
pub struct Script {
    names: Vec<String>,
    steps: Vec<Step>,
}

impl Model for Script {
    ghost use Rattle.std.specs.Coded.{codes};
    ghost use Rattle.std.specs.Prelude.{map, string_bytes};
    ghost use Rattle.formula_syntax.specs.TreeCode.{tree_code};
    ghost use Rattle.edit_script.specs.Scripts.{ScriptValue, IsWholeScript};

    ghost Value = { ScriptValue };

    ghost coded = { Prim.hlevel (codes, tree_code (Prim.hlevel codes)) };

    ghost view = { λ s. record { names = map string_bytes s.names.items; steps = s.steps.items } };

    ghost invariant = { λ s. IsWholeScript
        (record { names = map string_bytes s.names.items; steps = s.steps.items }) };
}

impl Script {
    /// A script of these clients and these steps, in this order.
    pub fn of(names: Vec<String>, steps: Vec<Step>) -> Script
        requires distinct { AllPairs (λ a b. a ≢ b) (map string_bytes names.items) }
        requires clients { All (λ step. step.client < length names.items) steps.items }
        ensures names { result.names ≡ map string_bytes names.items }
        ensures steps { result.steps ≡ steps.items }
    {
        Script { names, steps }
    }

    /// The clients, all different, in the order of their first places in the script: the first line that names one,
    /// or its first command where it is `main` and has one before every line that names a client.
    pub fn names(&self) -> &[String]
        ensures names { map string_bytes result.now ≡ self.now.names }
        ensures distinct { AllPairs (λ a b. a ≢ b) self.now.names }
    {
        &self.names
    }

    /// The commands, in the order of their lines, each with the place of its client among the names.
    pub fn steps(&self) -> &[Step]
        ensures steps { result.now ≡ self.now.steps }
        ensures clients { All (λ step. step.client < length self.now.names) result.now }
    {
        &self.steps
    }
}
