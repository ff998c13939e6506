// What a finding costs the buyer: rates, a rate file, the price of a line, and the lines of a quotation.
#![tactic(auto)]

mod names;
pub mod price;
pub mod quotation;
pub mod rate_file;
pub mod rates;
