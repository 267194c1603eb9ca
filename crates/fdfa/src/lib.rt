// The model of families of DFAs (FDFAs): every definition of meaning in specs/, and the laws about them in proofs/. It
// has no code, and nothing of this crate speaks of bytes.
#![tactic(auto)]
