// The definitions of a forecast and what is promised of them: document 01, "Forecast and variance". The code is in `forecasting`.
#![tactic(auto)]

pub mod promises;
