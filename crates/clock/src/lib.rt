// What is promised of the calls by two lent lists of clock changes (document 02, W-208), and the definition of the window's call. The code is in `clock_changes` and `windows`.
#![tactic(auto)]

pub mod promises;
