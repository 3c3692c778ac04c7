// The bit-sliced form of JH's permutation: where its elements and its round constants lie, in specs/, and the lemmas on bits that its code rests on.
#![tactic(auto)]
