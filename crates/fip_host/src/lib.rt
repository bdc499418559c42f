// The machine for C programs: a verified code, a store of cells and a run over both after one pointer. Each export is
// a thin function over a method of `Hosted`, and states its clauses again.
#![tactic(auto)]

mod answer;
mod calls;
mod handle;
mod hosted;
