//! Examples that the sources are run on: the edges of images, chips and changes; and a source to copy (`own`).
#![tactic(auto)]

#[cfg(test)]
mod images;
#[cfg(test)]
mod links;
pub mod own;
#[cfg(test)]
mod texts;

#[cfg(test)]
use card::Numbered;

/// The number of the refusal, where there is one.
#[cfg(test)]
fn number<T: Drop, E: Numbered + Drop>(outcome: Result<T, E>) -> Option<u8> {
    outcome.err().map(E::number)
}
