// Tests of the translator: how many words programs have, memory that just suffices and memory that does not.
#![tactic(auto)]

#[cfg(test)]
mod memory;
