//! Whole designs run through the program over files and outputs in memory, as tables: words and files in, text and status out.
#![tactic(auto)]

#[cfg(test)]
mod audits;
#[cfg(test)]
mod campaigns;
#[cfg(test)]
mod certificate_devices;
#[cfg(test)]
mod checks;
#[cfg(test)]
mod constants;
#[cfg(test)]
mod cuts;
#[cfg(test)]
mod fifos;
#[cfg(test)]
mod limits;
#[cfg(test)]
mod refused_texts;
#[cfg(test)]
mod replay_devices;
#[cfg(test)]
mod replays;
#[cfg(test)]
mod resets;
#[cfg(test)]
mod runs;
#[cfg(test)]
mod sdc_texts;
#[cfg(test)]
mod waivers;
#[cfg(test)]
mod writing;

fn main() {}
