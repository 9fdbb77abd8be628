// Timed automata, their loosened limits and their runs: what a reader must believe. Definitions and theorems alone.

#![tactic(auto)]
