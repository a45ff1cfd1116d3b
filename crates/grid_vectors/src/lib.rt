//! What no line of a case can say: cells that have no size or no default, that own memory, that find none, or that
//! equal a different one; that edits drop what they take out and take no memory; iterators for writing; laws; and a
//! caller whose result no clause says.
#![tactic(auto)]

#[cfg(test)]
mod asserts;
#[cfg(test)]
mod base;
#[cfg(test)]
mod callers;
#[cfg(test)]
mod dropped;
#[cfg(test)]
mod filled;
#[cfg(test)]
mod heaps;
#[cfg(test)]
mod json;
#[cfg(test)]
mod laws;
#[cfg(test)]
mod long;
#[cfg(test)]
mod moved;
#[cfg(test)]
mod run_laws;
#[cfg(test)]
mod spared;
#[cfg(test)]
mod worked;
#[cfg(test)]
mod written;
