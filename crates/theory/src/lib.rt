// The theorems about the definitions of meaning. There is no code here: proofs/ proves.
#![tactic(auto)]
