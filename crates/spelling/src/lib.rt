// One spelling of a policy, proved of the definitions. There is no code here: specs/ defines, proofs/ proves.
#![tactic(auto)]
