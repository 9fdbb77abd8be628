// The search over any zones that obey the laws, and what follows of it. Definitions and theorems alone.

#![tactic(auto)]
