// Tests of the check: each refusal with its place, and both sides of each limit.
#![tactic(auto)]

#[cfg(test)]
mod limits;
#[cfg(test)]
mod refusals;
#[cfg(test)]
mod tables;
