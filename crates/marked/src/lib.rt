// Document 01's marked cases, one table and one statement: specs/Marked.antt, proofs/Hold.antt.
#![tactic(auto)]
