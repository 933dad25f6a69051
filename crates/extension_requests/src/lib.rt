// What a line of skipextend asks for.
#![tactic(auto)]

pub mod request;
