// Tests of numbers, of their texts and of lines.
#![tactic(auto)]

#[cfg(test)]
mod lines;
#[cfg(test)]
mod numbers;
#[cfg(test)]
mod texts;
