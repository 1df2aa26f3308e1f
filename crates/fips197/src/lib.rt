// The parts of AES, the block cipher of FIPS 197: its substitution boxes and the transformations of its state.
#![tactic(auto)]

mod field;
mod inv_s_box;
mod s_box;
mod state;

pub use s_box::sub_byte;
pub use state::{mix_columns, mix_columns_back, shift_and_sub_back, sub_and_shift};
