// The refusals of the runs and of tags. Their definitions are those of modes.
#![tactic(auto)]

mod cbc;
mod cmac;
mod ctr;

pub use cbc::cbc_refusal;
pub use cmac::cmac_refusal;
pub use ctr::ctr_refusal;
