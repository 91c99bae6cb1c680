// The protocol as definitions and laws: rounds of all parties' calls, the plan's own arithmetic, the table of shares. No code.
#![tactic(auto)]
