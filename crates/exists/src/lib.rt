// That every sound trace has a plan which the judge accepts: the theorem stands in proofs/. There is no code here.
#![tactic(auto)]
