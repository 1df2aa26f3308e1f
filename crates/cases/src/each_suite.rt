// Each suite of the standard bank.
mod opened;
mod padded;
mod refused;
mod triples;
