// Programs as bytes: reading, typing and unfolding, and the inspection that goes through all three.
#![tactic(auto)]

ghost use Rattle.language.specs.Cases.{CasesRight};

pub mod command;
pub mod fault;
pub mod inspecting;
pub mod outline;
pub mod reading;
pub mod rest;
pub mod slices;
pub mod types;
pub mod typing;
pub mod unfolding;

// The theorem that the definitions give the worked cases.
pub fn worked_cases_stand()
    ensures { CasesRight }
{}
