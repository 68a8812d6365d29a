// The examples of 01 that are marked with a star: the table is in `specs/Table.antt`, its theorem in `proofs/Table.antt`.
#![tactic(auto)]
