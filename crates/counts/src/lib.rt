// What the soundness test needs counted: the links of every slot, its parent, the holders of every open file.
#![tactic(auto)]

pub mod count;
