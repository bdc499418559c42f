// What the kinds of sound code say of a frame's registers holds after each instruction. Definitions are in `specs`, the
// lemmas in `proofs`.
#![tactic(auto)]
