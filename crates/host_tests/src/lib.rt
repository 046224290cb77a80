#![tactic(auto)]

// Cases of numerals, hosts and layers, worked out from the rules.
#[cfg(test)]
mod hosts;
#[cfg(test)]
mod layers;
#[cfg(test)]
mod made;
#[cfg(test)]
mod numerals;
