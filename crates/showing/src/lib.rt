// For the programs that show one corner after another: the guest's page of commands, the entries called with it, and a line for each corner with what
// came and what is expected. What answers has a contract; what prints is held by the programs' `stdout`.
#![tactic(auto)]

pub mod guest;
pub mod show;
