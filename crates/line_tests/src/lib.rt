//! Tests of the language of lines: the limits of a line, and the text of each reply.
#![tactic(auto)]

#[cfg(test)]
mod replies;
#[cfg(test)]
mod tests;
