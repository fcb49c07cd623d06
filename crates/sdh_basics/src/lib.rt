// Definitions that several layers cite, over plain numbers and lists: lists by a place, BIP-8, hexadecimal digits and
// causes of faults. They stand in specs/, with their lemmas in proofs/.
#![tactic(auto)]
