// Tests of the machine: bad code of every sort, both sides of its limits, and words at random.
#![tactic(auto)]

#[cfg(test)]
mod runs;
#[cfg(test)]
mod steps;
