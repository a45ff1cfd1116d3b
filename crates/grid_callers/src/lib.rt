//! Callers of the library, whose contracts say what their calls come to: one for each group of calls, which tests what
//! these require and which the pages for callers quote, and chains over iterators.
#![tactic(auto)]

pub mod boards;
pub mod chains;
pub mod errors;
pub mod everyday;
pub mod first_hour;
pub mod games;
pub mod history;
pub mod joins;
pub mod lines;
pub mod loops;
pub mod near;
pub mod pairs;
pub mod parts;
pub mod paths;
pub mod pictures;
pub mod recursion;
pub mod rows;
pub mod sheets;
pub mod shown;
pub mod sizes;
pub mod texts;
pub mod updates;
pub mod values;
pub mod views;
pub mod whole;
pub mod words;
