// Definitions of whole numbers, and lemmas on them: division rounded down and to the nearest, and numbers in bytes and in a table's columns.
#![tactic(auto)]
