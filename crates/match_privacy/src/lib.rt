// The matching of coins as a definition, and its laws. No code.
#![tactic(auto)]
