// No code: what follows from the contracts of the public entries. The statements are in specs/, what proves them in proofs/.
#![tactic(auto)]
