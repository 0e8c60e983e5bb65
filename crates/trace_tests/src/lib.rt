// Traces, and what is told of the fault that each must give. Those of `unbooked` are wrong in themselves,
// those of `booked` ask for more than a station's hops can give. The tests are tables.
#![tactic(auto)]

#[cfg(test)]
mod tests;
