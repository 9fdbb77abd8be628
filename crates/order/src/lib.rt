// Document 02's one order of edges, as byte strings. Definitions and theorems alone.

#![tactic(auto)]
