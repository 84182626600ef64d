// No code: what is promised of every entry point's contract stands in specs and is proved in proofs.

#![tactic(auto)]
