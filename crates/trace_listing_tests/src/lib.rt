#![tactic(auto)]

// Cases of the listing of a trace, worked out from the rules.
#[cfg(test)]
mod edges;
#[cfg(test)]
mod refusals;
#[cfg(test)]
mod traces;
