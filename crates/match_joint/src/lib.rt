// The matching of a preparing run and a main run together, as a definition, and its laws. No code.
#![tactic(auto)]
