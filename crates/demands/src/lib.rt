// The three demands, proved of the operations' contracts. There is no code here: specs/ states, proofs/ proves.
#![tactic(auto)]
