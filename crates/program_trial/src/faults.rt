// Commands with each put and each fetch failing in turn: what no clause says, that a run ends with the status of the
// call that failed, that no put is made after it, and that a note which isn't taken changes no status.
mod commands;
mod runs;
mod tests;
