// Theorems over the calls of `transfers`, no code: the packet rules (`specs/PacketRules.antt`), and what every call leaves alone and hands back (`HandsBack`, `PipeStates`, `Stores`, `AllOpen`).
#![tactic(auto)]
