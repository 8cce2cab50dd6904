// Tests on other cases than the proved ones.
#![tactic(auto)]

#[cfg(test)]
mod making;
#[cfg(test)]
mod tables;
#[cfg(test)]
mod through;
#[cfg(test)]
mod words;
