// No code: specs/ says what Arm defines, proofs/ where the model does that, and under which entries of docs/DIFFERENCES.md.
#![tactic(auto)]
