// The lines of replay whose calls are on a bridge: what each gives to its call, and what is printed for it. The definitions and their laws stand here; the code is above.
#![tactic(auto)]
