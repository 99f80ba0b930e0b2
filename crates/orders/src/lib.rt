// The two orders of Q4_0, across the calls. This crate has theorems only: what is converted decodes to the same values,
// and to quantise to one order and to convert is to quantise to the other.
#![tactic(auto)]
