// Polynomials over a field, interpolation and sharing as definitions and laws. No code.
#![tactic(auto)]
