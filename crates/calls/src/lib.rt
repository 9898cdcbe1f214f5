// What a user calls to read a sheet or a part of it, into a table of words or of bytes.
#![tactic(auto)]

mod editions;
mod houses;
mod part_calls;
mod sheet_calls;

pub use houses::{
    read_house_part, read_house_part_bytes, read_house_sheet, read_house_sheet_bytes,
};
pub use part_calls::{read_part, read_part_bytes, read_part_bytes_in, read_part_in};
pub use sheet_calls::{read_sheet, read_sheet_bytes, read_sheet_bytes_in, read_sheet_in};
