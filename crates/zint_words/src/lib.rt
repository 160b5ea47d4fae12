//! The words of the command line: from the list that the system gives to what they ask for, or to the rule that they
//! break.
#![tactic(auto)]

mod broken_rule;
mod comma_values;
mod command;
mod drawing_options;
mod given;
mod options;
mod reading;
mod refusal;
mod rules;
mod values;

pub use reading::settings_of;
pub use refusal::Refusal;
