// No code: what is promised of the answers of reading, questions and header_questions stands in specs and is proved in proofs.

#![tactic(auto)]
