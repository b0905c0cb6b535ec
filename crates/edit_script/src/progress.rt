ghost use Rattle.std.specs.Prelude.{◌≡◌, ◌≢◌, ◌<◌, ◌≤◌, ◌+◌, ◌-◌};
ghost use Rattle.std.specs.Prelude.{◌^◌, ◌∷◌, ◌++◌, [], length};
ghost use Rattle.std.specs.Prelude.{Some, None, MatchOption, IfOk, IfErr, IsSome, OnOk, OnErr};
ghost use Rattle.sheet_model.specs.Fields.{IsContent, IsTableAfter};
ghost use Rattle.sheet_model.specs.Sheets.{ContentValue, IsWritten, content_value, with_labels};
ghost use Rattle.edit_script.specs.Progress.{brought, names_of, HoldsShortText, IsWithinLimits, Takes};
ghost use Rattle.edit_script.specs.Progress.{Extends, IsPlainlyAllowed, IsTextFault, MayChange};
ghost use Rattle.edit_script.specs.Saying.{line_value};
ghost use Rattle.edit_script.specs.Scripts.{AddsCommand, IsLineFault, MakesChange, change_of};
ghost use Rattle.edit_script.specs.Scripts.{line_number, nothing_yet, window_cells, with_batch, with_change};
ghost use Rattle.edit_script.specs.Scripts.{ground_of, with_client, with_edit, with_window};
ghost use Rattle.edit_script.specs.declared.refused.ScriptRefused.TheVariants as refused;
ghost use Rattle.edit_script.specs.declared.script.Command.TheVariants as asks;

use crate::batch::Batch;
use crate::line::Line;
use crate::refused::ScriptRefused;
use crate::script::{Command, Script, Step};
use sheet_model::{Change, Content, ContentRefused, Edit, Sheet};
use sheet_refs::{Cell, Memory, Range};
use std::alloc::Global;

/// What the lines so far have brought.
#[derive(Drop)]
pub(crate) struct Progress {
    /// The clients, in the order of their first places.
    pub(crate) names: Vec<String>,
    /// The place of the client whose commands follow; none before the first client has one.
    pub(crate) client: Option<u32>,
    /// How many cells all windows have.
    pub(crate) cells: u64,
    /// How many edits there are.
    pub(crate) edits: u32,
    /// The commands.
    pub(crate) steps: Vec<Step>,
    /// The changes of the batch that is open.
    pub(crate) batch: Option<Batch>,
    /// The line at which the last batch begins.
    pub(crate) begun: u32,
}

impl Progress {
    /// Before the first line.
    pub(crate) fn new(alloc: Global) -> Progress
        ensures brought { brought result ≡ nothing_yet }
        ensures sound { IsWithinLimits result }
        ensures steps { result.steps.items ≡ [] }
        ensures batch { result.batch ≡ None }
    {
        Progress {
            names: Vec::new(alloc),
            client: None,
            cells: 0,
            edits: 0,
            steps: Vec::new(alloc),
            batch: None,
            begun: 0,
        }
    }

    /// The line at which the batch begins that is open.
    pub(crate) fn unended(&self) -> Option<u32>
        ensures { MatchOption result (self.now.batch ≡ None)
            (λ number. (number ≡ self.now.begun) × IsSome self.now.batch) }
    {
        match &self.batch {
            Some(_) => Some(self.begun),
            None => None,
        }
    }

    /// The script of the lines.
    pub(crate) fn into_script(self) -> Script
        requires { IsWithinLimits self }
        ensures names { result.names ≡ names_of self }
        ensures steps { result.steps ≡ self.steps.items }
    {
        let Progress { names, steps, .. } = self;
        Script::of(names, steps)
    }

    /// Takes what a line says, or tells the first cause for which it is refused.
    pub(crate) fn take(
        &mut self,
        alloc: Global,
        line: &Line<'_>,
        number: u32,
        sheet: &mut Sheet,
    ) -> Result<(), ScriptRefused>
        requires sound { IsWithinLimits self.old }
        requires fits { HoldsShortText (line_value line.now) }
        requires room { length sheet.old.labels < 2 ^ 32 - 1 }
        ensures taken { OnOk result (Takes (ground_of sheet.old) (line_value line.now) number
            sheet.old.labels self.old sheet.new.labels self.new) }
        ensures fault { IfErr result (λ why. why ≢ refused.Memory → (line_number why ≡ number)
            × IsLineFault (ground_of sheet.old) (brought self.old) (line_value line.now) why) }
        ensures same { IfErr result (λ why. why ≢ refused.Memory → sheet.new ≡ sheet.old) }
        ensures kept { sheet.new ≡ with_labels sheet.old sheet.new.labels }
        ensures grown { Extends sheet.old.labels sheet.new.labels }
    {
        match self.fault(line, number, sheet) {
            Some(fault) => Err(fault),
            None => self.take_allowed(alloc, line, number, sheet),
        }
    }

    // Takes a line with which nothing is wrong, but for what a cell is to hold.
    fn take_allowed(
        &mut self,
        alloc: Global,
        line: &Line<'_>,
        number: u32,
        sheet: &mut Sheet,
    ) -> Result<(), ScriptRefused>
        requires sound { IsWithinLimits self.old }
        requires fits { HoldsShortText (line_value line.now) }
        requires room { length sheet.old.labels < 2 ^ 32 - 1 }
        requires allowed { IsPlainlyAllowed (ground_of sheet.old)
            (brought self.old) (line_value line.now) }
        ensures taken { OnOk result (Takes (ground_of sheet.old) (line_value line.now) number
            sheet.old.labels self.old sheet.new.labels self.new) }
        ensures fault { IfErr result (λ why. why ≢ refused.Memory → (line_number why ≡ number)
            × IsLineFault (ground_of sheet.old) (brought self.old) (line_value line.now) why) }
        ensures same { IfErr result (λ why. why ≢ refused.Memory → sheet.new ≡ sheet.old) }
        ensures kept { sheet.new ≡ with_labels sheet.old sheet.new.labels }
        ensures grown { Extends sheet.old.labels sheet.new.labels }
    {
        match line {
            Line::Skip => Ok(()),
            Line::Client(name) => self.name(alloc, name),
            Line::Set(cell, text) => self.set(alloc, *cell, text, number, sheet),
            Line::Clear(cell) => self.change(alloc, *cell, Content::Empty),
            Line::Look(range) => self.look(alloc, *range, Command::Look(*range)),
            Line::Firm(range) => self.look(alloc, *range, Command::Firm(*range)),
            Line::Work(turns) => self.push(alloc, Command::Work(*turns)),
            Line::Batch => {
                self.begin(alloc, number);
                Ok(())
            }
            Line::End => self.end(alloc),
        }
    }

    // Adds a command of that client.
    fn push(&mut self, alloc: Global, command: Command) -> Result<(), ScriptRefused>
        requires sound { IsWithinLimits self.old }
        ensures refused { IfErr result (λ why. why ≡ refused.Memory) }
        ensures sound { OnOk result (IsWithinLimits self.new) }
        ensures brought { OnOk result
            (brought self.new ≡ with_client (brought self.old) (brought self.old).client) }
        ensures step { OnOk result (AddsCommand command (brought self.new)
            self.old.steps.items self.new.steps.items) }
        ensures batch { self.new.batch ≡ self.old.batch }
        ensures begun { self.new.begun ≡ self.old.begun }
    {
        let client = self.commander(alloc)?;
        self.add_step(Step { client, command })
    }

    // Adds a step.
    fn add_step(&mut self, step: Step) -> Result<(), ScriptRefused>
        ensures refused { IfErr result (λ why. why ≡ refused.Memory) }
        ensures added { OnOk result (self.new.steps.items ≡ self.old.steps.items ++ step ∷ []) }
        ensures rest { self.new ≡ record self.old { steps = self.new.steps } }
    {
        match self.steps.push(step) {
            Ok(()) => Ok(()),
            Err(_) => Err(ScriptRefused::Memory),
        }
    }

    // Adds an edit of one change, of the client whose commands follow.
    fn put(&mut self, alloc: Global, change: Change) -> Result<(), ScriptRefused>
        requires sound { IsWithinLimits self.old }
        requires room { self.old.edits < 1048576 }
        ensures refused { IfErr result (λ why. why ≡ refused.Memory) }
        ensures sound { OnOk result (IsWithinLimits self.new) }
        ensures brought { OnOk result (brought self.new
            ≡ with_edit (with_client (brought self.old) (brought self.old).client)) }
        ensures step { OnOk result (AddsCommand (asks.Put (change ∷ [])) (brought self.new)
            self.old.steps.items self.new.steps.items) }
        ensures batch { self.new.batch ≡ self.old.batch }
        ensures begun { self.new.begun ≡ self.old.begun }
    {
        self.edits += 1;
        let Ok(edit) = Edit::one(alloc, change) else {
            return Err(ScriptRefused::Memory);
        };
        self.push(alloc, Command::Put(edit))
    }

    // Adds a change to the batch that is open.
    fn add_to_batch(&mut self, change: Change) -> Result<(), ScriptRefused>
        requires sound { IsWithinLimits self.old }
        requires may { MayChange (brought self.old) change.cell }
        requires some { IsSome self.old.batch }
        ensures refused { IfErr result (λ why. why ≡ refused.Memory) }
        ensures batch { OnOk result (MatchOption self.old.batch ⊥
            (λ changes. self.new.batch ≡ Some (changes ++ change ∷ []))) }
        ensures rest { self.new ≡ record self.old { batch = self.new.batch } }
    {
        match &mut self.batch {
            Some(batch) => match batch.push(change) {
                Ok(()) => Ok(()),
                Err(_) => Err(ScriptRefused::Memory),
            },
            None => unreachable!(),
        }
    }

    // Adds a change of a cell: to the batch that is open, or as an edit by itself.
    fn change(&mut self, alloc: Global, cell: Cell, content: Content) -> Result<(), ScriptRefused>
        requires sound { IsWithinLimits self.old }
        requires may { MayChange (brought self.old) cell }
        requires written { IsWritten (content_value content) }
        ensures refused { IfErr result (λ why. why ≡ refused.Memory) }
        ensures sound { OnOk result (IsWithinLimits self.new) }
        ensures brought { OnOk result (brought self.new
            ≡ with_change (brought self.old).batch (brought self.old) cell) }
        ensures makes { OnOk result (MakesChange (brought self.new)
            (change_of cell (content_value content)) self.old.batch self.new.batch
            self.old.steps.items self.new.steps.items) }
        ensures begun { self.new.begun ≡ self.old.begun }
    {
        let change = Change { cell, content };
        if self.batch.is_some() {
            self.add_to_batch(change)
        } else {
            self.put(alloc, change)
        }
    }

    // Begins a batch at a line.
    fn begin(&mut self, alloc: Global, number: u32)
        requires sound { IsWithinLimits self.old }
        requires room { self.old.edits < 1048576 }
        ensures sound { IsWithinLimits self.new }
        ensures brought { brought self.new ≡ with_batch (with_edit (brought self.old)) (Some []) }
        ensures batch { self.new.batch ≡ Some [] }
        ensures begun { self.new.begun ≡ number }
        ensures steps { self.new.steps ≡ self.old.steps }
    {
        self.edits += 1;
        self.batch = Some(Batch::new(alloc));
        self.begun = number;
    }

    // Ends the batch that is open: its changes are an edit of the client whose commands follow.
    fn end(&mut self, alloc: Global) -> Result<(), ScriptRefused>
        requires sound { IsWithinLimits self.old }
        requires some { MatchOption self.old.batch ⊥ (λ changes. 1 ≤ length changes) }
        ensures refused { IfErr result (λ why. why ≡ refused.Memory) }
        ensures sound { OnOk result (IsWithinLimits self.new) }
        ensures brought { OnOk result (brought self.new
            ≡ with_batch (with_client (brought self.old) (brought self.old).client) None) }
        ensures step { OnOk result (MatchOption self.old.batch ⊥
            (λ changes. AddsCommand (asks.Put changes) (brought self.new)
            self.old.steps.items self.new.steps.items)) }
        ensures batch { OnOk result (self.new.batch ≡ None) }
        ensures begun { self.new.begun ≡ self.old.begun }
    {
        match self.batch.take() {
            Some(batch) => self.push(alloc, Command::Put(batch.into_edit())),
            None => unreachable!(),
        }
    }

    // Adds an edit by which a cell is to hold what a text writes.
    fn set(
        &mut self,
        alloc: Global,
        cell: Cell,
        text: &str,
        number: u32,
        sheet: &mut Sheet,
    ) -> Result<(), ScriptRefused>
        requires sound { IsWithinLimits self.old }
        requires may { MayChange (brought self.old) cell }
        requires short { length text.now ≤ 8192 }
        requires room { length sheet.old.labels < 2 ^ 32 - 1 }
        ensures refused { IfErr result
            (λ why. why ≢ refused.Memory → IsTextFault sheet.old.edition text.now number why) }
        ensures same { IfErr result (λ why. why ≢ refused.Memory → sheet.new ≡ sheet.old) }
        ensures sound { OnOk result (IsWithinLimits self.new) }
        ensures brought { OnOk result (brought self.new
            ≡ with_change (brought self.old).batch (brought self.old) cell) }
        ensures makes { OnOk result ((content : ContentValue)
            × IsContent sheet.old.edition sheet.new.labels text.now content
            × MakesChange (brought self.new) (change_of cell content) self.old.batch self.new.batch
            self.old.steps.items self.new.steps.items) }
        ensures begun { self.new.begun ≡ self.old.begun }
        ensures table { OnOk result (IsTableAfter text.now sheet.old.labels sheet.new.labels) }
        ensures kept { sheet.new ≡ with_labels sheet.old sheet.new.labels }
        ensures grown { Extends sheet.old.labels sheet.new.labels }
    {
        let content = content_of(text, number, sheet)?;
        self.change(alloc, cell, content)
    }

    // Adds a look of that client.
    fn look(&mut self, alloc: Global, range: Range, command: Command) -> Result<(), ScriptRefused>
        requires sound { IsWithinLimits self.old }
        requires room { self.old.cells + window_cells range ≤ 4194304 }
        ensures refused { IfErr result (λ why. why ≡ refused.Memory) }
        ensures sound { OnOk result (IsWithinLimits self.new) }
        ensures brought { OnOk result (brought self.new
            ≡ with_window (with_client (brought self.old) (brought self.old).client) range) }
        ensures step { OnOk result (AddsCommand command (brought self.new)
            self.old.steps.items self.new.steps.items) }
        ensures batch { self.new.batch ≡ self.old.batch }
        ensures begun { self.new.begun ≡ self.old.begun }
    {
        self.cells += range.cells();
        self.push(alloc, command)
    }
}

// What a text writes, in the sheet's own table of labels.
fn content_of(text: &str, number: u32, sheet: &mut Sheet) -> Result<Content, ScriptRefused>
    requires short { length text.now ≤ 8192 }
    requires room { length sheet.old.labels < 2 ^ 32 - 1 }
    ensures read { IfOk result
        (λ content. IsContent sheet.old.edition sheet.new.labels text.now (content_value content)) }
    ensures written { IfOk result (λ content. IsWritten (content_value content)) }
    ensures table { OnOk result (IsTableAfter text.now sheet.old.labels sheet.new.labels) }
    ensures kept { sheet.new ≡ with_labels sheet.old sheet.new.labels }
    ensures refused { OnErr result (sheet.new ≡ sheet.old) }
    ensures why { IfErr result
        (λ why. why ≢ refused.Memory → IsTextFault sheet.old.edition text.now number why) }
{
    match sheet.read(text) {
        Ok(content) => Ok(content),
        Err(ContentRefused::TooDeep) => Err(ScriptRefused::FormulaTooDeep(number)),
        Err(ContentRefused::TooManyRefs) => Err(ScriptRefused::TooManyRefs(number)),
        Err(ContentRefused::Memory) => Err(ScriptRefused::Memory),
    }
}
