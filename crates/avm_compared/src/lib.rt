//! The fast machine beside the plain one: words that both decode, and guests that both run, with handlers, peers and messages; and
//! the plain one alone.
#![tactic(auto)]

#[cfg(test)]
mod both;
#[cfg(test)]
mod peers;
#[cfg(test)]
mod plain;
#[cfg(test)]
mod tests;
