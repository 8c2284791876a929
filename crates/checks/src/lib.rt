// Tests of the libraries. Expected values are the crate exr's where it answers, else those of docs/RULES.md.
#![tactic(auto)]

#[cfg(test)]
mod counting;
#[cfg(test)]
mod layers;
#[cfg(test)]
mod pairs;
#[cfg(test)]
mod tiles;
#[cfg(test)]
mod written;
