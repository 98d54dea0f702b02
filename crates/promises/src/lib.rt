// The customer's theorem, over the promises of `load`, `run` and `reprint` taken together. No code.
#![tactic(auto)]
