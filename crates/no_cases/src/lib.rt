//! Cases of the public calls beside those of the tables under `examples/`, worked out by hand: what no command of the
//! program shows yet.
#![tactic(auto)]

#[cfg(test)]
mod commands;
#[cfg(test)]
mod decoding;
#[cfg(test)]
mod externals;
#[cfg(test)]
mod frames;
#[cfg(test)]
mod heap;
#[cfg(test)]
mod layouts;
#[cfg(test)]
mod machine;
#[cfg(test)]
mod operators;
#[cfg(test)]
mod pages;
#[cfg(test)]
mod ports;
#[cfg(test)]
mod profiles;
#[cfg(test)]
mod spellings;
