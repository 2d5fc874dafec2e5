// Tests of a book's calls, one after the other.
#![tactic(auto)]

#[cfg(test)]
mod tests;
