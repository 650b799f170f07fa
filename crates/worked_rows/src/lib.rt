//! Worked rows: replies, gauges and weights that are known beforehand, computed from the definitions. They stand in `proofs/`, each a lemma
//! that computing closes; there is no function.
#![tactic(auto)]
