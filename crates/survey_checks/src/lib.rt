// The counts of a survey that its codes give, and what turns it away: the code of what the crate survey defines.
#![tactic(auto)]

pub mod counts; // counts.rt: drift columns p and external columns k
pub mod refusals; // refusals.rt: 1 to 11, 22, 12
