// Document 01, "Station cases": T1 to T12, shown of the definitions by one table.
#![tactic(auto)]

ghost use Rattle.std.specs.Prelude.{◌≡◌};
ghost use Rattle.station_cases.specs.Cases.{Every, numbers, compared, table};

// Every row of the table holds, and each case has its rows.
pub fn station_cases()
    ensures rows { Every table }
    ensures cases { numbers table ≡ compared }
{}
