//! Texts through the layers that read them: printed names, tokens, constraints in SDC, the words of the command line.
#![tactic(auto)]

#[cfg(test)]
mod names;
#[cfg(test)]
mod sdc;
#[cfg(test)]
mod tokens;
#[cfg(test)]
mod words;

fn main() {}
