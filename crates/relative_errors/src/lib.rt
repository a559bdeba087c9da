// The definitions of models whose errors are multiplicative (relative) and of their variance, and what is promised of them: document 02, W-205. The code is in
// `relative_variance`.
#![tactic(auto)]

pub mod promises;
