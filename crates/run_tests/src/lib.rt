//! Rows of the run that are tried by running: sheets of sample cards at every span, and the commands that a judge uses.
#![tactic(auto)]

#[cfg(test)]
mod commands;
#[cfg(test)]
mod sheets;
