// No code: what is promised of the writer's calls stands in specs and is proved in proofs.

#![tactic(auto)]
