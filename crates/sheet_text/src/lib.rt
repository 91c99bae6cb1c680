// Formula sheets as definitions and laws: the text as a tree, the tree's value, names and gates. No code.
#![tactic(auto)]
