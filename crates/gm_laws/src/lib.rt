//! The laws of each kind of part, in the words in which the theorems on machines need them.
//!
//! Its promise: whichever kind a part is of, its rules keep the laws in `specs/Laws.antt`, which speak of what a part shows of itself
//! (`specs/Face.antt`), and of what it means to the program (`specs/Program.antt`). A kind has one clause in `specs/Faces.antt` and a
//! file in `proofs/`. No theorem on a whole machine is here.
#![tactic(auto)]

mod laws;

pub use laws::parts_keep_laws;
