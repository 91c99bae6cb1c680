// Parties that don't wait for each other: calls in any order, as a definition, and its laws. No code.
#![tactic(auto)]
