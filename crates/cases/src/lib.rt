// Examples of every refusal and of the edges of what is built, and of every answer of each suite of the standard bank.
#![tactic(auto)]

#[cfg(test)]
mod calls;
#[cfg(test)]
mod each_suite;
#[cfg(test)]
mod made;
#[cfg(test)]
mod opened;
#[cfg(test)]
mod padded;
#[cfg(test)]
mod sealed;
#[cfg(test)]
mod under;
