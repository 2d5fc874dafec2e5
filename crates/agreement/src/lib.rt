// Tests of compiled references: on lists of outcomes they decide as the program runs.
#![tactic(auto)]

#[cfg(test)]
mod running;
#[cfg(test)]
mod tests;
